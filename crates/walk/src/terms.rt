// The terms of a pixel: a field of the image times the power of two that its table's scale gives.
ghost use Rattle.std.specs.Prelude.{◌≡◌, ◌+◌, ◌-◌, ◌*◌, ◌/◌, ◌%◌, ◌^◌, ◌<◌, ◌≤◌, pos, nat_abs, ◌*ℤ◌};
ghost use Rattle.util.specs.Words.{listed, field, signed_field};
ghost use Rattle.util.specs.Sums.{term_of};
ghost use Rattle.util.specs.Pixels as pixels;
ghost use Rattle.walk.specs.Parts.{nibble, kta_average};

use camera::{COLUMNS, K_TA_AVERAGES, ROWS};
use util::{i16_from_bits, power_of_two, term, u16_from_bits};

// Where a table has the nibbles of its rows, or those of its columns: count of them from its word first on, with their scale from bit low of its word 0 up.
#[derive(Clone, Copy)]
pub(crate) struct Bulk {
    pub first: usize,
    pub low: u32,
    pub count: usize,
    ghost near: { first ≤ 8 },
    ghost few: { count ≤ 32 },
}

pub(crate) const ROW_BULK: Bulk = Bulk {
    first: ROWS,
    low: 8,
    count: 24,
};

pub(crate) const COLUMN_BULK: Bulk = Bulk {
    first: COLUMNS,
    low: 4,
    count: 32,
};

// Signed nibble k of the words that x is one of: four to a word, the lowest in bits 3..0.
pub(crate) fn nibble_in(x: u16, k: usize) -> i16
    ensures { result ≡ signed_field x (4 * (k % 4)) 4 }
{
    i16_from_bits(x, 4 * (k % 4) as u32, 4)
}

// Signed nibble k of the words from first on.
pub(crate) fn nibble_at(words: &[u16; 832], first: usize, k: usize) -> i16
    requires { (first < 800) × (k < 32) }
    ensures { result ≡ nibble (listed words.now) first k }
{
    nibble_in(words[first + k / 4], k)
}

// The place of pixel p in chessboard order.
fn chessboard(p: usize) -> usize
    ensures { result ≡ pixels.chessboard p }
{
    p / 32 % 2 + 2 * (p % 32 % 2)
}

// The word that holds the Kta average of pixel p, and of another one beside it.
pub fn k_ta_average_word(p: usize) -> usize
    ensures value { result ≡ 0x36 + pixels.chessboard p / 2 }
    ensures upper_bound { result < 0x38 }
{
    K_TA_AVERAGES + chessboard(p) / 2
}

// The lowest of its eight bits in that word.
pub fn k_ta_average_low(p: usize) -> u32
    ensures value { result ≡ 8 * (1 - pixels.chessboard p % 2) }
    ensures upper_bound { result ≤ 8 }
{
    8 * (1 - chessboard(p) % 2) as u32
}

// The Kta average of pixel p in that word.
pub(crate) fn k_ta_average_in(x: u16, p: usize) -> i16
    ensures { result ≡ signed_field x (8 * (1 - pixels.chessboard p % 2)) 8 }
{
    i16_from_bits(x, k_ta_average_low(p), 8)
}

// The Kta average of pixel p.
pub(crate) fn k_ta_average(words: &[u16; 832], p: usize) -> i16
    ensures { result ≡ kta_average (listed words.now) p }
{
    k_ta_average_in(words[k_ta_average_word(p)], p)
}

// The term of nibble k of a bulk of the table whose words start at base.
pub(crate) fn bulk_term(words: &[u16; 832], base: usize, bulk: Bulk, k: usize) -> i32
    requires { (base ≤ 32) × (k < 32) }
    ensures { result ≡ term_of (nibble (listed words.now) (base + bulk.first) k) (field (listed words.now base) bulk.low 4) }
{
    term(
        nibble_at(words, base + bulk.first, k),
        words[base],
        bulk.low,
    )
}

// 2 to the power that stands in the four bits of word n from bit low up.
pub fn scale_power(words: &[u16; 832], n: usize, low: u32) -> u16
    requires { n < 832 }
    ensures value { result ≡ 2 ^ field (listed words.now n) low 4 }
    ensures upper_bound { result ≤ 32768 }
{
    power_of_two(u32::from(u16_from_bits(words[n], low, 4)))
}

// f x power.
pub fn scaled(f: i16, power: u16) -> i32
    requires { power ≤ 32768 }
    ensures value { result ≡ f *ℤ pos power }
    ensures result_bound { nat_abs result ≤ 0x40000000 }
{
    i32::from(f) * i32::from(power)
}
