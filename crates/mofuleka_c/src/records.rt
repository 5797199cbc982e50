// Questions over a record's bytes: the record is read from them, and asked.
ghost use Rattle.std.specs.Prelude.{◌≡◌};
ghost use Rattle.mofuleka.specs.Records.{k_v_pixel_answer, interleave_correction_pixel_answer, interleave_correction_cp_answer, alpha_cp_answer, offset_reference_cp_answer};

// A pixel's Kv.
#[unsafe(no_mangle)]
pub extern "C" fn mofuleka_k_v_pixel(record: &[u8], pixel: usize) -> u64
    ensures { result ≡ k_v_pixel_answer «record».now pixel }
{
    mofuleka::mofuleka_k_v_pixel(record, pixel)
}

// A pixel's correction.
#[unsafe(no_mangle)]
pub extern "C" fn mofuleka_interleave_correction_pixel(
    record: &[u8],
    pattern: u32,
    pixel: usize,
) -> u64
    ensures { result ≡ interleave_correction_pixel_answer «record».now pattern pixel }
{
    mofuleka::mofuleka_interleave_correction_pixel(record, pattern, pixel)
}

// The correction of a subpage's compensation pixel.
#[unsafe(no_mangle)]
pub extern "C" fn mofuleka_interleave_correction_cp(
    record: &[u8],
    pattern: u32,
    subpage: u32,
) -> u64
    ensures { result ≡ interleave_correction_cp_answer «record».now pattern subpage }
{
    mofuleka::mofuleka_interleave_correction_cp(record, pattern, subpage)
}

// The sensitivity of a subpage's compensation pixel.
#[unsafe(no_mangle)]
pub extern "C" fn mofuleka_alpha_cp(record: &[u8], subpage: u32) -> u64
    ensures { result ≡ alpha_cp_answer «record».now subpage }
{
    mofuleka::mofuleka_alpha_cp(record, subpage)
}

// The offset of a subpage's compensation pixel.
#[unsafe(no_mangle)]
pub extern "C" fn mofuleka_offset_reference_cp(record: &[u8], subpage: u32) -> u64
    ensures { result ≡ offset_reference_cp_answer «record».now subpage }
{
    mofuleka::mofuleka_offset_reference_cp(record, subpage)
}
