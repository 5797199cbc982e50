// Where a number of a table comes from: the fields of one pixel, their scales and terms and each running sum, up to the entry; or, of an image that the
// decoder refuses, up to the number that it refuses.

#![tactic(auto)]

mod cut;
mod fields;
mod found;

ghost use Rattle.std.specs.Prelude.{◌≡◌, ◌<◌};
ghost use Rattle.util.specs.Words.{listed};
ghost use Rattle.explanation.specs.Explanation.{described, explanation_of};

pub use cut::reached_by;
use cut::{cut_parts, entry_up_to, exponent_up_to, failure_of};
use eeprom::read_words;
use fields::{exponent_in, parts_of};
use found::{pixel_in, table_in};
use pixel::asked;
use refusal::{Refusal, Table, Verdict};
use walk::first_refusal;

// A field: the word that it stands in, its highest and its lowest bit there, those bits, the number that they are in two's complement, and that number times
// 2 to the power of its scale.
#[derive(Clone, Copy, Debug, PartialEq, Eq)]
pub struct Part {
    pub address: u16,
    pub high: u8,
    pub low: u8,
    pub raw: u16,
    pub value: i16,
    pub scale: u8,
    pub term: i32,
}

// What an entry is made of, in the order in which it is summed.
#[derive(Clone, Copy, Debug, PartialEq, Eq)]
pub struct Parts {
    pub average: Part,
    pub row: Part,
    pub after_row: i32,
    pub column: Part,
    pub after_column: i32,
    pub remainder: Part,
    pub numerator: i32,
}

// What 16 bits don't hold: a term, or the final sum.
#[derive(Clone, Copy, Debug, PartialEq, Eq)]
pub enum Failure {
    Row,
    Column,
    Remainder,
    Sum,
}

// An entry: a whole number in the offset table, a fraction in the others.
#[derive(Clone, Copy, Debug, PartialEq)]
pub enum Entry {
    Whole(i16),
    Fraction(f32),
}

// An answer. `found` is what the decoder answers for the image: accepted, 3 or 4. `table` and `pixel` are those asked for or, beside a 3 or a 4, those that it
// names. What comes after a failure is blank, and there is no entry.
// Blank and not absent: the C interface has a number in each place (`explanation_bytes`).
#[derive(Clone, Copy, Debug, PartialEq)]
pub struct Explanation {
    pub found: Verdict,
    pub table: Table,
    pub pixel: u32,
    pub failure: Option<Failure>,
    pub parts: Parts,
    pub exponent: u8,
    pub entry: Option<Entry>,
}

// Pixel p of a table, where the decoder answers so.
fn describe(words: &[u16; 832], found: Verdict, table: Table, p: usize) -> Explanation
    requires { p < 768 }
    ensures { result ≡ described found (listed words.now) table p }
{
    let parts = parts_of(words, table, p);
    let exponent = exponent_in(words, table);
    let failure = failure_of(table, parts);
    let entry = entry_up_to(failure, table, parts.numerator, exponent);
    Explanation {
        found,
        table,
        pixel: p as u32,
        failure,
        parts: cut_parts(failure, parts),
        exponent: exponent_up_to(failure, exponent),
        entry,
    }
}

// Explains pixel p of the table with that number or, where the decoder refuses the image with 3 or 4, the pixel and the table that it names. Refusals 1, 11, 15.
#[tactic(auto, unfolding(crate::specs::Explanation::explanation_of))]
pub fn explain(image: &[u8], table: u32, p: usize) -> Result<Explanation, Refusal>
    ensures { result ≡ explanation_of image.now table p }
{
    asked(image.len(), p)?;
    let table = Table::try_from(table)?;
    let words = read_words(image);
    let found = first_refusal(&words);
    Ok(describe(&words, found, table_in(found, table), pixel_in(found, p)))
}
