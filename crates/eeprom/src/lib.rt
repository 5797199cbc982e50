// The decoder, after the crate's eeprom.rs: an image's 1,664 bytes into a record and three lent tables, or a refusal.

#![tactic(auto)]

ghost use Rattle.std.specs.Prelude.{◌≡◌, ◌≤◌, length};
ghost use Rattle.util.specs.Words.{listed};
ghost use Rattle.refusal.specs.Code.{verdict_of};
ghost use Rattle.steps.specs.Steps.{first_outside};
ghost use Rattle.walk.specs.Walk.{walk};
ghost use Rattle.util.specs.Lists.{tab};
ghost use Rattle.tables.specs.Entries.{offset_at, alpha_at, kta_at};
ghost use Rattle.eeprom.specs.Image.{image_words};
ghost use Rattle.eeprom.specs.Decoding.{tables_short, answered, decoded_of, table_after};

use record::{Record, read_record};
use refusal::Refusal;
use tables::{fill_alpha, fill_k_ta, fill_offset};
use walk::first_refusal;

// The image's words, and zeros for those that are ignored.
pub fn read_words(image: &[u8]) -> [u16; 832]
    requires { 1664 ≤ length image.now }
    ensures { result ≡ tab (image_words image.now) 832 }
{
    // The bytes as they lie, and then each word's two swapped: a loop that computes leaves the zeros before it to be written whole, by memset.
    let mut words = [0; 832];
    for n in 16..832 {
        words[n] = u16::from_le_bytes([image[2 * n], image[2 * n + 1]]);
    }
    for word in &mut words {
        *word = word.swap_bytes();
    }
    words
}

// The record and the tables of an image's words.
fn decode_words(
    words: &[u16; 832],
    offset: &mut [i16],
    alpha: &mut [f32],
    k_ta: &mut [f32],
) -> Result<Record, Refusal>
    requires { (768 ≤ length offset.old) × (768 ≤ length alpha.old) × (768 ≤ length k_ta.old) }
    ensures answer { result ≡ answered (first_outside (walk (listed words.now))) (listed words.now) }
    ensures offset { offset.new ≡ table_after (verdict_of result) (offset_at (listed words.now)) offset.old }
    ensures alpha { alpha.new ≡ table_after (verdict_of result) (alpha_at (listed words.now)) alpha.old }
    ensures k_ta { k_ta.new ≡ table_after (verdict_of result) (kta_at (listed words.now)) k_ta.old }
{
    first_refusal(words)?;
    fill_offset(words, offset);
    fill_alpha(words, alpha);
    fill_k_ta(words, k_ta);
    Ok(read_record(words))
}

// Whether one of the three tables has too few entries.
fn tables_short(offset: usize, alpha: usize, k_ta: usize) -> bool
    ensures { result ≡ tables_short offset alpha k_ta }
{
    offset < 768 || alpha < 768 || k_ta < 768
}

// Decodes an image into a record and three lent tables. Refusals 1, 2, then the walk's 3 and 4; a refused call writes nothing.
// Three slices, since the C interface lends them so.
pub fn from_data(
    image: &[u8],
    offset: &mut [i16],
    alpha: &mut [f32],
    k_ta: &mut [f32],
) -> Result<Record, Refusal>
    ensures answer { result ≡ decoded_of image.now (length offset.old) (length alpha.old) (length k_ta.old) }
    ensures offset { offset.new ≡ table_after (verdict_of result) (offset_at (image_words image.now)) offset.old }
    ensures alpha { alpha.new ≡ table_after (verdict_of result) (alpha_at (image_words image.now)) alpha.old }
    ensures k_ta { k_ta.new ≡ table_after (verdict_of result) (kta_at (image_words image.now)) k_ta.old }
{
    if image.len() != 1664 {
        return Err(Refusal::ImageLength);
    }
    if tables_short(offset.len(), alpha.len(), k_ta.len()) {
        return Err(Refusal::ShortSlice);
    }
    let words = read_words(image);
    decode_words(&words, offset, alpha, k_ta)
}
