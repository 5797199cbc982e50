// Questions about the camera: masks, read ranges, compensation pixels, resolution.
ghost use Rattle.std.specs.Prelude.{◌≡◌, min};
ghost use Rattle.mofuleka.specs.Cameras.{mask_word, range_count_word, range_word, compensation_word, resolution_word};
ghost use Rattle.mofuleka.specs.Cameras.{pixel_in_subpage_answer, pixel_range_count_answer, pixel_range_answer, compensation_pixel_answer, resolution_correction_answer};

use crate::answers::{valued, word_from};
use camera::{
    AccessPattern, Subpage, compensation_pixel, pixel_in_subpage, pixel_range, pixel_range_count,
    resolution_correction,
};
use exact::bits;
use refusal::Refusal;

// 1 where a pixel is in a subpage.
fn mask_word(pattern: u32, subpage: u32, pixel: usize) -> Result<u64, Refusal>
    ensures { result ≡ mask_word pattern subpage pixel }
{
    let pattern = AccessPattern::try_from(pattern)?;
    let subpage = Subpage::try_from(subpage)?;
    let held = pixel_in_subpage(pattern, subpage, pixel)?;
    Ok(valued(u64::from(held)))
}

// Whether a pixel is in a subpage.
pub fn mofuleka_pixel_in_subpage(pattern: u32, subpage: u32, pixel: usize) -> u64
    ensures { result ≡ pixel_in_subpage_answer pattern subpage pixel }
{
    word_from(mask_word(pattern, subpage, pixel))
}

fn range_count_word(pattern: u32) -> Result<u64, Refusal>
    ensures { result ≡ range_count_word pattern }
{
    let pattern = AccessPattern::try_from(pattern)?;
    Ok(valued(pixel_range_count(pattern) as u64))
}

// How many ranges a subpage is read in.
pub fn mofuleka_pixel_range_count(pattern: u32) -> u64
    ensures { result ≡ pixel_range_count_answer pattern }
{
    word_from(range_count_word(pattern))
}

// A range's address, offset and length.
fn range_word(pattern: u32, subpage: u32, number: usize) -> Result<u64, Refusal>
    ensures { result ≡ range_word pattern subpage number }
{
    let pattern = AccessPattern::try_from(pattern)?;
    let subpage = Subpage::try_from(subpage)?;
    let range = pixel_range(pattern, subpage, number)?;
    let address = u64::from(range.start_address.0);
    let offset = range.buffer_offset.0 as u64;
    let length = range.length as u64;
    Ok(valued(address * 0x100000000 + offset * 0x10000 + length))
}

// A range by its number.
pub fn mofuleka_pixel_range(pattern: u32, subpage: u32, number: usize) -> u64
    ensures { result ≡ pixel_range_answer pattern subpage number }
{
    word_from(range_word(pattern, subpage, number))
}

fn compensation_word(subpage: u32) -> Result<u64, Refusal>
    ensures { result ≡ compensation_word subpage }
{
    let subpage = Subpage::try_from(subpage)?;
    Ok(valued(u64::from(compensation_pixel(subpage).0)))
}

// The address of a subpage's compensation pixel.
pub fn mofuleka_compensation_pixel(subpage: u32) -> u64
    ensures { result ≡ compensation_pixel_answer subpage }
{
    word_from(compensation_word(subpage))
}

// The number in a byte, 255 where it has no room there.
fn as_byte(n: u32) -> u8
    ensures { result ≡ min n 255 }
{
    n.min(255) as u8
}

fn resolution_word(calibrated: u32, current: u32) -> Result<u64, Refusal>
    ensures { result ≡ resolution_word calibrated current }
{
    let correction = resolution_correction(as_byte(calibrated), as_byte(current))?;
    Ok(valued(u64::from(bits(correction))))
}

// 2 to the power calibrated minus current.
pub fn mofuleka_resolution_correction(calibrated: u32, current: u32) -> u64
    ensures { result ≡ resolution_correction_answer calibrated current }
{
    word_from(resolution_word(calibrated, current))
}
