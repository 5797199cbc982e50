// One pixel, from the words that it needs: what its entry in each table is made of, and the first of its numbers that 16 bits don't hold.
ghost use Rattle.std.specs.Prelude.{◌≡◌, ◌^◌, ◌<◌, ◌≤◌, nat_abs};
ghost use Rattle.util.specs.Words.{listed};
ghost use Rattle.steps.specs.Steps.{first_outside};
ghost use Rattle.walk.specs.Walk.{pixel_steps};
ghost use Rattle.walk.specs.Inner.Single.{shared_from, kta_from, shared_terms, kta_terms, steps_for};

use crate::PixelTerms;
use crate::terms::{k_ta_average_in, k_ta_average_word, nibble_in};
use camera::{
    AVERAGE, COLUMNS, OFFSET_COMPENSATION, PIXEL_CALIBRATION, ROWS, SENSITIVITY_SCALE,
    V_AND_TA_SCALE,
};
use refusal::{Table, Verdict};
use steps::first_of;
use util::{i16_from_bits, term};

// The terms of pixel p in offset or alpha, from the words that hold the table's scales, its average, the pixel's row and its column, and from the
// pixel's own word, in which the remainder starts at bit low.
pub fn shared_terms(
    scales: u16,
    average: u16,
    rows: u16,
    columns: u16,
    own: u16,
    low: u32,
    p: usize,
) -> PixelTerms
    ensures value { result ≡ shared_from scales average rows columns own low p }
    ensures sum_bound { nat_abs result.sum < 2 ^ 24 }
{
    let row = term(nibble_in(rows, p / 32), scales, 8);
    let column = term(nibble_in(columns, p % 32), scales, 4);
    let remainder = term(i16_from_bits(own, low, 6), scales, 0);
    let sum = i16_from_bits(average, 0, 16) as i32 + row + column + remainder;
    PixelTerms {
        row,
        column,
        own: remainder,
        sum,
    }
}

// The terms of pixel p in Kta, from the words that hold its average and the table's scale, and from its own word.
pub fn k_ta_terms(average: u16, scales: u16, own: u16, p: usize) -> PixelTerms
    ensures value { result ≡ kta_from average scales own p }
    ensures sum_bound { nat_abs result.sum < 2 ^ 24 }
{
    let remainder = term(i16_from_bits(own, 1, 3), scales, 0);
    let sum = k_ta_average_in(average, p) as i32 + remainder;
    PixelTerms {
        row: 0,
        column: 0,
        own: remainder,
        sum,
    }
}

// The first fault of a pixel with these terms in a table. 0 is handed over for what a table has not: alpha a sum to test, Kta a row and a column.
#[tactic(auto, unfolding(steps::specs::Steps::first_outside, util::specs::Sums::in16))]
pub fn fault_of(table: Table, p: u32, terms: PixelTerms) -> Verdict
    ensures { result ≡ first_outside (steps_for table p terms) }
{
    match table {
        Table::Offset => first_of(table, p, terms.row, terms.column, terms.own, terms.sum),
        Table::Alpha => first_of(table, p, terms.row, terms.column, terms.own, 0),
        Table::Kta => first_of(table, p, 0, 0, terms.own, terms.sum),
    }
}

// The terms of pixel p in the table whose words start at base, from all words of the image.
fn terms_at(words: &[u16; 832], base: usize, low: u32, p: usize) -> PixelTerms
    requires { (base ≤ 32) × (p < 768) }
    ensures { result ≡ shared_terms (listed words.now) base low p }
{
    shared_terms(
        words[base],
        words[base + AVERAGE],
        words[base + ROWS + p / 32 / 4],
        words[base + COLUMNS + p % 32 / 4],
        words[PIXEL_CALIBRATION + p],
        low,
        p,
    )
}

// The same of Kta.
// That a pixel is below 768 is a clause here and wherever one is named by number: a type for it would be taken off again for each word's number that is made of it.
fn k_ta_terms_at(words: &[u16; 832], p: usize) -> PixelTerms
    requires { p < 768 }
    ensures { result ≡ kta_terms (listed words.now) p }
{
    k_ta_terms(
        words[k_ta_average_word(p)],
        words[V_AND_TA_SCALE],
        words[PIXEL_CALIBRATION + p],
        p,
    )
}

// The first fault of pixel p of a table.
pub(crate) fn pixel(words: &[u16; 832], table: Table, p: usize) -> Verdict
    requires { p < 768 }
    ensures { result ≡ first_outside (pixel_steps (listed words.now) table p) }
{
    let place = p as u32;
    match table {
        Table::Offset => fault_of(table, place, terms_at(words, OFFSET_COMPENSATION, 10, p)),
        Table::Alpha => fault_of(table, place, terms_at(words, SENSITIVITY_SCALE, 4, p)),
        Table::Kta => fault_of(table, place, k_ta_terms_at(words, p)),
    }
}
