// One pixel's offset, alpha and Kta, from the eleven words that they need and no others: what a viewer shows under the cursor while the tables are still being
// built.

#![tactic(auto)]

ghost use Rattle.std.specs.Prelude.{◌≡◌, true, ◌^◌, ◌<◌, nat_abs};
ghost use Rattle.util.specs.Words.{word_at, listed};
ghost use Rattle.util.specs.Sums.{in16};
ghost use Rattle.util.specs.Lists.{tab};
ghost use Rattle.pixel.specs.Needed.{needed_by};
ghost use Rattle.pixel.specs.Inner.Places.{Rising, Below};
ghost use Rattle.pixel.specs.Answer.{past_refusal, tests_of, pixel_of};
ghost use Rattle.pixel.specs.Inner.From.{fault_with, summed, answer_from};

use camera::{
    AVERAGE, COLUMNS, OFFSET_COMPENSATION, PIXEL_CALIBRATION, ROWS, SENSITIVITY_SCALE,
    V_AND_TA_SCALE,
};
use exact::over_power;
use refusal::{Refusal, Table, Verdict};
use std::array;
use util::{u16_from_bits, word};
use walk::{PixelTerms, fault_of, k_ta_average_word, k_ta_terms, shared_terms};

// A pixel's entries in the three tables.
#[derive(Clone, Copy, Debug, PartialEq)]
pub struct PixelEntries {
    pub offset: i16,
    pub alpha: f32,
    pub k_ta: f32,
}

// The words that pixel p needs, by their numbers, rising.
pub fn needed(p: usize) -> [usize; 11]
    requires { p < 768 }
    ensures value { result ≡ needed_by p }
    ensures rising { Rising result × Below 832 result }
{
    let row = p / 32 / 4;
    let column = p % 32 / 4;
    [
        OFFSET_COMPENSATION,
        OFFSET_COMPENSATION + AVERAGE,
        OFFSET_COMPENSATION + ROWS + row,
        OFFSET_COMPENSATION + COLUMNS + column,
        SENSITIVITY_SCALE,
        SENSITIVITY_SCALE + AVERAGE,
        SENSITIVITY_SCALE + ROWS + row,
        SENSITIVITY_SCALE + COLUMNS + column,
        k_ta_average_word(p),
        V_AND_TA_SCALE,
        PIXEL_CALIBRATION + p,
    ]
}

// The first fault of pixel p with these terms in the three tables.
#[tactic(auto, unfolding(steps::specs::Steps::first_outside))]
fn first_fault(p: u32, offset: PixelTerms, alpha: PixelTerms, k_ta: PixelTerms) -> Verdict
    ensures { result ≡ fault_with p offset alpha k_ta }
{
    fault_of(Table::Offset, p, offset)?;
    fault_of(Table::Alpha, p, alpha)?;
    fault_of(Table::Kta, p, k_ta)
}

// The entries with these sums: alpha's over the power of two in the top bits of its scales, and Kta's over the one in its own.
fn entries(offset: i32, alpha: i32, alpha_scales: u16, k_ta: i32, k_ta_scales: u16) -> PixelEntries
    requires { (in16 offset ≡ true) × (nat_abs alpha < 2 ^ 24) × (nat_abs k_ta < 2 ^ 24) }
    ensures { result ≡ summed offset alpha alpha_scales k_ta k_ta_scales }
{
    PixelEntries {
        offset: offset as i16,
        alpha: over_power(alpha, u16_from_bits(alpha_scales, 12, 4) as usize + 30),
        k_ta: over_power(k_ta, u16_from_bits(k_ta_scales, 4, 4) as usize + 8),
    }
}

// The answer for pixel p, from the words that it needs.
pub fn pixel_from(words: &[u16; 11], p: usize) -> Result<PixelEntries, Refusal>
    requires { p < 768 }
    ensures { result ≡ answer_from words.now p }
{
    let own = words[10];
    let offset = shared_terms(words[0], words[1], words[2], words[3], own, 10, p);
    let alpha = shared_terms(words[4], words[5], words[6], words[7], own, 4, p);
    let k_ta = k_ta_terms(words[8], words[9], own, p);
    first_fault(p as u32, offset, alpha, k_ta)?;
    Ok(entries(offset.sum, alpha.sum, words[4], k_ta.sum, words[9]))
}

// Refusal 11 where p is no pixel.
pub fn past_the_end(p: usize) -> Verdict
    ensures { result ≡ past_refusal p }
{
    if 768 <= p {
        Err(Refusal::PastTheEnd)
    } else {
        Ok(())
    }
}

// Refusal 1 for an image of so many bytes, then 11.
pub fn asked(bytes: usize, p: usize) -> Verdict
    ensures { result ≡ tests_of bytes p }
{
    if bytes != 1664 {
        return Err(Refusal::ImageLength);
    }
    past_the_end(p)
}

// The big-endian words with these numbers, of an image or of a gathering's bytes, which begin with its values.
pub fn words_at(image: &[u8], numbers: &[usize; 11]) -> [u16; 11]
    ensures { result ≡ tab (λ k. word_at image.now (listed numbers.now k)) 11 }
{
    array::from_fn(|k| word(image, numbers[k]))
}

// Pixel p of an image. Refusals 1 and 11, then 3 or 4 for this pixel's own numbers: offset's, alpha's, Kta's.
pub fn pixel(image: &[u8], p: usize) -> Result<PixelEntries, Refusal>
    ensures { result ≡ pixel_of image.now p }
{
    asked(image.len(), p)?;
    let words = words_at(image, &needed(p));
    pixel_from(&words, p)
}
