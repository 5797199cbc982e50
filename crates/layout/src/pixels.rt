// A pixel's bytes: its offset, its alpha, its Kta.
ghost use Rattle.std.specs.Prelude.{◌≡◌, ◌≤◌, length};
ghost use Rattle.std.proofs.lemmas.List.Edits.{sets};
ghost use Rattle.layout.specs.Sizes.{pixel_size};
ghost use Rattle.layout.specs.PixelBytes.{pixel_bytes};

use crate::numbers::Number;

// The three numbers at the front of out.
pub fn put_pixel(offset: i16, alpha: f32, k_ta: f32, out: &mut [u8])
    requires { pixel_size ≤ length out.old }
    ensures out_after { out.new ≡ sets out.old 0 (pixel_bytes offset alpha k_ta) }
    ensures k_ta_len { length (pixel_bytes offset alpha k_ta) ≡ pixel_size }
{
    offset.put(out, 0);
    alpha.put(out, 2);
    k_ta.put(out, 6);
}
