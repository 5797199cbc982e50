// One pixel of an image or of a gathering, its three numbers laid out in a slice.
ghost use Rattle.std.specs.Prelude.{◌≡◌, eqb, length};
ghost use Rattle.eeprom.specs.Image.{image_words};
ghost use Rattle.page.specs.Page.{image_in};
ghost use Rattle.mofuleka.specs.Answers.{refusal_word};
ghost use Rattle.mofuleka.specs.Images.{lent_after};
ghost use Rattle.mofuleka.specs.Gatherings.{stored_words};
ghost use Rattle.mofuleka.specs.Pixels.{bytes_at, slice_pixel_refusal, stored_pixel_refusal};

// A pixel of an image, or of a page that begins with one.
#[unsafe(no_mangle)]
pub extern "C" fn mofuleka_pixel(image: &[u8], pixel: usize, out: &mut [u8]) -> u64
    ensures answer { result ≡ refusal_word (slice_pixel_refusal (image_in image.now) pixel (length out.old)) }
    ensures out { out.new ≡ lent_after (eqb result 0) (bytes_at (image_words (image_in image.now)) pixel) out.old }
{
    mofuleka::mofuleka_pixel(image, pixel, out)
}

// A pixel of a gathering, as soon as the words that it needs are held.
#[unsafe(no_mangle)]
pub extern "C" fn mofuleka_gathering_pixel(gathering: &[u8], pixel: usize, out: &mut [u8]) -> u64
    ensures answer { result ≡ refusal_word (stored_pixel_refusal gathering.now pixel (length out.old)) }
    ensures out { out.new ≡ lent_after (eqb result 0) (bytes_at (stored_words gathering.now) pixel) out.old }
{
    mofuleka::mofuleka_gathering_pixel(gathering, pixel, out)
}
