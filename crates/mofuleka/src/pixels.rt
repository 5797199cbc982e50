// One pixel of an image or of a gathering, its three numbers laid out in a slice.
ghost use Rattle.std.specs.Prelude.{◌≡◌, eqb, length, ◌≤◌, ◌<◌, MatchResult};
ghost use Rattle.refusal.specs.Code.{accepted_by, or_else, verdict_of};
ghost use Rattle.eeprom.specs.Image.{image_words};
ghost use Rattle.pixel.specs.Answer.{answered};
ghost use Rattle.layout.specs.Sizes.{gathering_size, pixel_size};
ghost use Rattle.page.specs.Page.{image_in};
ghost use Rattle.mofuleka.specs.Answers.{refusal_word, short_for};
ghost use Rattle.mofuleka.specs.Images.{lent_after};
ghost use Rattle.mofuleka.specs.Gatherings.{stored_words};
ghost use Rattle.mofuleka.specs.Pixels.{numbers, bytes_at, slice_pixel_refusal, stored_fault, stored_pixel_refusal};

use crate::answers::{refusal_word, room_for};
use gathering::pixel_of_cells;
use layout::{GATHERING_BYTES, PIXEL_BYTES, get_marks_at, put_pixel};
use page::image_length;
use pixel::{PixelEntries, asked, needed, past_the_end, words_at};
use refusal::{Refusal, Verdict};

// Lays a pixel's entries out; nothing is written where the call is refused. Refusal 2 for the slice comes first, then the pixel's own.
fn lay_pixel(found: Result<PixelEntries, Refusal>, out: &mut [u8]) -> Verdict
    ensures answer { result ≡ or_else (short_for pixel_size (length out.old)) (verdict_of found) }
    ensures out { MatchResult found (λ x. out.new ≡ lent_after (accepted_by result) (numbers x) out.old) (λ e. out.new ≡ out.old) }
{
    room_for(PIXEL_BYTES, out.len())?;
    let laid = found?;
    put_pixel(laid.offset, laid.alpha, laid.k_ta, out);
    Ok(())
}

// A pixel of an image: 1 and 11, then 2 for the slice, then 3 and 4.
fn lay_image_pixel(image: &[u8], p: usize, out: &mut [u8]) -> Verdict
    ensures answer { result ≡ slice_pixel_refusal image.now p (length out.old) }
    ensures out { out.new ≡ lent_after (accepted_by result) (bytes_at (image_words image.now) p) out.old }
{
    asked(image.len(), p)?;
    lay_pixel(pixel::pixel(image, p), out)
}

// A pixel of an image, or of a page that begins with one.
pub fn mofuleka_pixel(image: &[u8], pixel: usize, out: &mut [u8]) -> u64
    ensures answer { result ≡ refusal_word (slice_pixel_refusal (image_in image.now) pixel (length out.old)) }
    ensures out { out.new ≡ lent_after (eqb result 0) (bytes_at (image_words (image_in image.now)) pixel) out.old }
{
    let count = image_length(image.len());
    refusal_word(lay_image_pixel(&image[..count], pixel, out))
}

// A pixel of the gathering in a slice, from the cells that the pixel needs and no others.
fn stored_pixel(gathering: &[u8], p: usize) -> Result<PixelEntries, Refusal>
    requires p_bound { p < 768 }
    requires gathering_size_in_bounds { gathering_size ≤ length gathering.now }
    ensures { result ≡ answered (stored_fault gathering.now p) (stored_words gathering.now) p }
{
    let words = needed(p);
    // Two arrays, as a gathering has two.
    let values = words_at(gathering, &words);
    let marks = get_marks_at(gathering, &words);
    pixel_of_cells(&values, &marks, p)
}

// A pixel of a gathering: 11, 2 for the gathering, 2 for the slice, then the pixel's own.
fn lay_stored_pixel(gathering: &[u8], p: usize, out: &mut [u8]) -> Verdict
    ensures answer { result ≡ stored_pixel_refusal gathering.now p (length out.old) }
    ensures out { out.new ≡ lent_after (accepted_by result) (bytes_at (stored_words gathering.now) p) out.old }
{
    past_the_end(p)?;
    room_for(GATHERING_BYTES, gathering.len())?;
    lay_pixel(stored_pixel(gathering, p), out)
}

// A pixel of a gathering, as soon as the words that it needs are held.
pub fn mofuleka_gathering_pixel(gathering: &[u8], pixel: usize, out: &mut [u8]) -> u64
    ensures answer { result ≡ refusal_word (stored_pixel_refusal gathering.now pixel (length out.old)) }
    ensures out { out.new ≡ lent_after (eqb result 0) (bytes_at (stored_words gathering.now) pixel) out.old }
{
    refusal_word(lay_stored_pixel(gathering, pixel, out))
}
