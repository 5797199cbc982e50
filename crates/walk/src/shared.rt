// What the pixels of a row and those of a column share, added up once for a whole table.
ghost use Rattle.std.specs.Prelude.{◌≡◌, ℕ, ◌<◌, ◌≤◌, ◌%◌, get_or, length, pos};
ghost use Rattle.util.specs.Words.{listed};
ghost use Rattle.walk.specs.Parts.{row_sum, column_term, kta_average};

use crate::terms::{COLUMN_BULK, ROW_BULK, bulk_term, k_ta_average};
use camera::AVERAGE;
use std::array;
use util::i16_from_bits;

// The average with the term of row r.
// That a row is below 24, a column below 32 and a table's base at most 32 is one clause each, which a type of their own would not shorten.
fn row_sum(words: &[u16; 832], base: usize, r: usize) -> i32
    requires { (base ≤ 32) × (r < 24) }
    ensures { result ≡ row_sum (listed words.now) base r }
{
    let average = i32::from(i16_from_bits(words[base + AVERAGE], 0, 16));
    average + bulk_term(words, base, ROW_BULK, r)
}

// The average with each row's term.
pub fn row_sums(words: &[u16; 832], base: usize) -> [i32; 24]
    requires { base ≤ 32 }
    ensures by_index { (r : ℕ) → r < 24 → get_or result r (pos 0) ≡ row_sum (listed words.now) base r }
    ensures result_len { length result ≡ 24 }
{
    array::from_fn(|r| row_sum(words, base, r))
}

// Each column's term, for even rows and again for odd ones.
pub fn column_terms(words: &[u16; 832], base: usize) -> [i32; 64]
    requires { base ≤ 32 }
    ensures by_index { (i : ℕ) → i < 64 → get_or result i (pos 0) ≡ column_term (listed words.now) base (i % 32) }
    ensures result_len { length result ≡ 64 }
{
    let mut terms = [0; 64];
    // A loop, and not array::from_fn with i % 32: those copies go one at a time, and with a max() in `reach` a decode took 1.21 times as long, past the targets
    // of docs/SPEED.md.
    for c in 0..32 {
        let term = bulk_term(words, base, COLUMN_BULK, c);
        terms[c] = term;
        terms[32 + c] = term;
    }
    terms
}

// The Kta averages of the first two rows: every even row has the first, every odd row the second.
pub fn k_ta_columns(words: &[u16; 832]) -> [i32; 64]
    ensures by_index { (i : ℕ) → i < 64 → get_or result i (pos 0) ≡ kta_average (listed words.now) i }
    ensures result_len { length result ≡ 64 }
{
    // Pixels 0, 32, 1 and 33 have the four, in chessboard order.
    let order: [i32; 4] = array::from_fn(|k| i32::from(k_ta_average(words, k % 2 * 32 + k / 2)));
    array::from_fn(|i| order[i / 32 + 2 * (i % 2)])
}
