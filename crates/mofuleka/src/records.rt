// Questions over a record's bytes: the record is read from them, and asked.
ghost use Rattle.std.specs.Prelude.{◌≡◌};
ghost use Rattle.mofuleka.specs.Records.{stored_record, k_v_word, correction_word, pixel_correction_word, cp_correction_word, alpha_cp_word, offset_cp_word};
ghost use Rattle.mofuleka.specs.Records.{k_v_pixel_answer, interleave_correction_pixel_answer, interleave_correction_cp_answer, alpha_cp_answer, offset_reference_cp_answer};

use crate::answers::{beside, slice_answer, valued};
use camera::{AccessPattern, Subpage};
use exact::bits;
use layout::{RECORD_BYTES, get_record};
use record::{
    Record, alpha_cp_of, blank_record, interleave_correction_cp, interleave_correction_pixel,
    k_v_pixel, offset_reference_cp_of,
};
use refusal::Refusal;
use util::i16_bits;

// The record in a slice, blank where the slice is too short for one.
fn stored_record(bytes: &[u8]) -> Record
    ensures { result ≡ stored_record bytes.now }
{
    if bytes.len() < RECORD_BYTES {
        blank_record()
    } else {
        get_record(bytes)
    }
}

// A pixel's Kv.
// Alike with those below: each is a name of the C interface, and makes the bits of its own number.
fn k_v_word(record: Record, pixel: usize) -> Result<u64, Refusal>
    ensures { result ≡ k_v_word «record» pixel }
{
    let k_v = k_v_pixel(record, pixel)?;
    Ok(valued(u64::from(bits(k_v))))
}

pub fn mofuleka_k_v_pixel(record: &[u8], pixel: usize) -> u64
    ensures { result ≡ k_v_pixel_answer «record».now pixel }
{
    slice_answer(
        k_v_word(stored_record(record), pixel),
        record.len(),
        RECORD_BYTES,
    )
}

// Whether there is a correction, beside which it is.
fn correction_word(correction: Option<f32>) -> u64
    ensures { result ≡ correction_word correction }
{
    match correction {
        None => beside(0, 0),
        Some(value) => beside(1, bits(value)),
    }
}

// A pixel's correction.
fn pixel_correction_word(record: Record, pattern: u32, pixel: usize) -> Result<u64, Refusal>
    ensures { result ≡ pixel_correction_word «record» pattern pixel }
{
    let pattern = AccessPattern::try_from(pattern)?;
    let correction = interleave_correction_pixel(record, pattern, pixel)?;
    Ok(correction_word(correction))
}

pub fn mofuleka_interleave_correction_pixel(record: &[u8], pattern: u32, pixel: usize) -> u64
    ensures { result ≡ interleave_correction_pixel_answer «record».now pattern pixel }
{
    slice_answer(
        pixel_correction_word(stored_record(record), pattern, pixel),
        record.len(),
        RECORD_BYTES,
    )
}

// The correction of a subpage's compensation pixel.
fn cp_correction_word(record: Record, pattern: u32, subpage: u32) -> Result<u64, Refusal>
    ensures { result ≡ cp_correction_word «record» pattern subpage }
{
    let pattern = AccessPattern::try_from(pattern)?;
    let subpage = Subpage::try_from(subpage)?;
    Ok(correction_word(interleave_correction_cp(record, pattern, subpage)))
}

pub fn mofuleka_interleave_correction_cp(record: &[u8], pattern: u32, subpage: u32) -> u64
    ensures { result ≡ interleave_correction_cp_answer «record».now pattern subpage }
{
    slice_answer(
        cp_correction_word(stored_record(record), pattern, subpage),
        record.len(),
        RECORD_BYTES,
    )
}

// The sensitivity of a subpage's compensation pixel.
fn alpha_cp_word(record: Record, subpage: u32) -> Result<u64, Refusal>
    ensures { result ≡ alpha_cp_word «record» subpage }
{
    let subpage = Subpage::try_from(subpage)?;
    Ok(valued(u64::from(bits(alpha_cp_of(record, subpage)))))
}

pub fn mofuleka_alpha_cp(record: &[u8], subpage: u32) -> u64
    ensures { result ≡ alpha_cp_answer «record».now subpage }
{
    slice_answer(
        alpha_cp_word(stored_record(record), subpage),
        record.len(),
        RECORD_BYTES,
    )
}

// The offset of a subpage's compensation pixel.
fn offset_cp_word(record: Record, subpage: u32) -> Result<u64, Refusal>
    ensures { result ≡ offset_cp_word «record» subpage }
{
    let subpage = Subpage::try_from(subpage)?;
    Ok(valued(u64::from(i16_bits(offset_reference_cp_of(record, subpage)))))
}

pub fn mofuleka_offset_reference_cp(record: &[u8], subpage: u32) -> u64
    ensures { result ≡ offset_reference_cp_answer «record».now subpage }
{
    slice_answer(
        offset_cp_word(stored_record(record), subpage),
        record.len(),
        RECORD_BYTES,
    )
}
