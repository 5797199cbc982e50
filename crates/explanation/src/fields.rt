// The fields of a pixel in each table: where they stand, what they hold, and their sums.
ghost use Rattle.std.specs.Prelude.{◌≡◌, ◌+◌, ◌-◌, ◌*◌, ◌^◌, ◌<◌, ◌≤◌, nat_abs};
ghost use Rattle.util.specs.Words.{listed, field};
ghost use Rattle.explanation.specs.Explanation.{part_at, blank_part, summed, shared_parts, kta_parts, parts_in, exponent_in};

use crate::{Part, Parts};
use camera::{
    AVERAGE, BASE, COLUMNS, OFFSET_COMPENSATION, PIXEL_CALIBRATION, ROWS, SENSITIVITY_SCALE,
    V_AND_TA_SCALE,
};
use refusal::Table;
use util::{i16_from_bits, term, u16_from_bits};
use walk::{k_ta_average_low, k_ta_average_word};

// The field of width bits of word n from bit low up. Its scale stands in the four bits of scales from bit from up.
fn part(words: &[u16; 832], n: usize, low: u32, width: u32, scales: u16, from: u32) -> Part
    requires { (n < 832) × (0 < width) × (low + width ≤ 16) }
    ensures value { result ≡ part_at (listed words.now) n low width (field scales from 4) }
    ensures term_bound { nat_abs result.term ≤ 2 ^ (width - 1) * 2 ^ field scales from 4 }
{
    let x = words[n];
    let value = i16_from_bits(x, low, width);
    Part {
        address: (BASE + n) as u16,
        high: (low + (width - 1)) as u8,
        low: low as u8,
        raw: u16_from_bits(x, low, width),
        value,
        scale: u16_from_bits(scales, from, 4) as u8,
        term: term(value, scales, from),
    }
}

// A field that a table doesn't have.
pub(crate) fn blank_part() -> Part
    ensures { result ≡ blank_part }
{
    Part {
        address: 0,
        high: 0,
        low: 0,
        raw: 0,
        value: 0,
        scale: 0,
        term: 0,
    }
}

// The parts with their running sums.
fn sum_up(average: Part, row: Part, column: Part, remainder: Part) -> Parts
    requires { (nat_abs average.term ≤ 0x8000) × (nat_abs row.term ≤ 0x40000) × (nat_abs column.term ≤ 0x40000) × (nat_abs remainder.term ≤ 0x100000) }
    ensures value { result ≡ summed average row column remainder }
    ensures numerator_bound { nat_abs result.numerator < 2 ^ 24 }
{
    let after_row = average.term + row.term;
    let after_column = after_row + column.term;
    let numerator = after_column + remainder.term;
    Parts {
        average,
        row,
        after_row,
        column,
        after_column,
        remainder,
        numerator,
    }
}

// The parts of pixel p in the table whose words start at base; the remainder starts at bit low of the pixel's own word.
#[tactic(auto, unfolding(crate::specs::Explanation::shared_parts))]
fn shared_parts(words: &[u16; 832], base: usize, low: u32, p: usize) -> Parts
    requires { (base ≤ 32) × (low ≤ 10) × (p < 768) }
    ensures value { result ≡ shared_parts (listed words.now) base low p }
    ensures numerator_bound { nat_abs result.numerator < 2 ^ 24 }
{
    let scales = words[base];
    let row = p / 32;
    let column = p % 32;
    sum_up(
        part(words, base + AVERAGE, 0, 16, 0, 0),
        part(
            words,
            base + ROWS + row / 4,
            4 * (row % 4) as u32,
            4,
            scales,
            8,
        ),
        part(
            words,
            base + COLUMNS + column / 4,
            4 * (column % 4) as u32,
            4,
            scales,
            4,
        ),
        part(words, PIXEL_CALIBRATION + p, low, 6, scales, 0),
    )
}

// The parts of pixel p in Kta.
#[tactic(auto, unfolding(crate::specs::Explanation::kta_parts))]
fn k_ta_parts(words: &[u16; 832], p: usize) -> Parts
    requires { p < 768 }
    ensures value { result ≡ kta_parts (listed words.now) p }
    ensures numerator_bound { nat_abs result.numerator < 2 ^ 24 }
{
    let blank = blank_part();
    sum_up(
        part(words, k_ta_average_word(p), k_ta_average_low(p), 8, 0, 0),
        blank,
        blank,
        part(words, PIXEL_CALIBRATION + p, 1, 3, words[V_AND_TA_SCALE], 0),
    )
}

// The parts of pixel p in a table.
pub(crate) fn parts_of(words: &[u16; 832], table: Table, p: usize) -> Parts
    requires { p < 768 }
    ensures value { result ≡ parts_in (listed words.now) table p }
    ensures numerator_bound { nat_abs result.numerator < 2 ^ 24 }
{
    match table {
        Table::Offset => shared_parts(words, OFFSET_COMPENSATION, 10, p),
        Table::Alpha => shared_parts(words, SENSITIVITY_SCALE, 4, p),
        Table::Kta => k_ta_parts(words, p),
    }
}

// The power of two that a table's numerators are over.
pub(crate) fn exponent_in(words: &[u16; 832], table: Table) -> u16
    ensures value { result ≡ exponent_in (listed words.now) table }
    ensures upper_bound { result < 50 }
{
    match table {
        Table::Offset => 0,
        Table::Alpha => u16_from_bits(words[SENSITIVITY_SCALE], 12, 4) + 30,
        Table::Kta => u16_from_bits(words[V_AND_TA_SCALE], 4, 4) + 8,
    }
}
