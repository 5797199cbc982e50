// Questions about the camera: masks, read ranges, compensation pixels, resolution.
ghost use Rattle.std.specs.Prelude.{◌≡◌};
ghost use Rattle.mofuleka.specs.Cameras.{pixel_in_subpage_answer, pixel_range_count_answer, pixel_range_answer, compensation_pixel_answer, resolution_correction_answer};

// Whether a pixel is in a subpage.
#[unsafe(no_mangle)]
pub extern "C" fn mofuleka_pixel_in_subpage(pattern: u32, subpage: u32, pixel: usize) -> u64
    ensures { result ≡ pixel_in_subpage_answer pattern subpage pixel }
{
    mofuleka::mofuleka_pixel_in_subpage(pattern, subpage, pixel)
}

// How many ranges a subpage is read in.
#[unsafe(no_mangle)]
pub extern "C" fn mofuleka_pixel_range_count(pattern: u32) -> u64
    ensures { result ≡ pixel_range_count_answer pattern }
{
    mofuleka::mofuleka_pixel_range_count(pattern)
}

// A range by its number.
#[unsafe(no_mangle)]
pub extern "C" fn mofuleka_pixel_range(pattern: u32, subpage: u32, number: usize) -> u64
    ensures { result ≡ pixel_range_answer pattern subpage number }
{
    mofuleka::mofuleka_pixel_range(pattern, subpage, number)
}

// The address of a subpage's compensation pixel.
#[unsafe(no_mangle)]
pub extern "C" fn mofuleka_compensation_pixel(subpage: u32) -> u64
    ensures { result ≡ compensation_pixel_answer subpage }
{
    mofuleka::mofuleka_compensation_pixel(subpage)
}

// 2 to the power calibrated minus current.
#[unsafe(no_mangle)]
pub extern "C" fn mofuleka_resolution_correction(calibrated: u32, current: u32) -> u64
    ensures { result ≡ resolution_correction_answer calibrated current }
{
    mofuleka::mofuleka_resolution_correction(calibrated, current)
}
