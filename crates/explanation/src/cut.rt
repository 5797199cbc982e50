// What fails in a pixel, and the numbers up to there: what comes after a failure is blank.
ghost use Rattle.std.specs.Prelude.{◌≡◌, true, [], ◌∷◌, ◌^◌, ◌<◌, pos, nat_abs, None, Some};
ghost use Rattle.util.specs.Sums.{in16};
ghost use Rattle.refusal.specs.declared.Table.TheVariants as table-variants;
ghost use Rattle.explanation.specs.Explanation.{blank_part, step_names, first_named, reached, up_to, cut_parts};
ghost use Rattle.explanation.specs.Inner.From.{tested_sum, failure_from, entry_from};

use crate::fields::blank_part;
use crate::{Entry, Failure, Part, Parts};
use exact::over_power;
use refusal::Table;
use util::outside;

// The name of the first of four numbers that 16 bits don't hold.
#[tactic(auto, unfolding(crate::specs::Explanation::first_named))]
fn first_failure(row: i32, column: i32, remainder: i32, sum: i32) -> Option<Failure>
    ensures { result ≡ first_named (step_names table-variants.Offset) (row ∷ column ∷ remainder ∷ sum ∷ []) }
{
    if outside(row) {
        return Some(Failure::Row);
    }
    if outside(column) {
        return Some(Failure::Column);
    }
    if outside(remainder) {
        return Some(Failure::Remainder);
    }
    if outside(sum) {
        return Some(Failure::Sum);
    }
    None
}

// The sum that a table's walk tests: alpha has none.
fn tested_sum(table: Table, sum: i32) -> i32
    ensures { result ≡ tested_sum table sum }
{
    match table {
        Table::Offset | Table::Kta => sum,
        Table::Alpha => 0,
    }
}

// What fails in a table with these parts.
pub(crate) fn failure_of(table: Table, parts: Parts) -> Option<Failure>
    ensures { result ≡ failure_from table parts }
{
    first_failure(
        parts.row.term,
        parts.column.term,
        parts.remainder.term,
        tested_sum(table, parts.numerator),
    )
}

// How many of a pixel's four numbers are inside before the failure.
// A number, since `up_to` and `reached` (specs/Explanation.antt) count the steps.
pub fn reached_by(failure: Option<Failure>) -> u32
    ensures { result ≡ reached failure }
{
    match failure {
        Some(Failure::Row) => 0,
        Some(Failure::Column) => 1,
        Some(Failure::Remainder) => 2,
        Some(Failure::Sum) => 3,
        None => 4,
    }
}

// A part, where so many numbers are inside.
fn part_up_to(k: u32, failure: Option<Failure>, part: Part) -> Part
    ensures { result ≡ up_to k failure part blank_part }
{
    if k <= reached_by(failure) {
        part
    } else {
        blank_part()
    }
}

// A number, where so many are inside.
fn number_up_to(k: u32, failure: Option<Failure>, z: i32) -> i32
    ensures { result ≡ up_to k failure z (pos 0) }
{
    if k <= reached_by(failure) { z } else { 0 }
}

// The exponent, where nothing fails.
pub(crate) fn exponent_up_to(failure: Option<Failure>, exponent: u16) -> u8
    requires { exponent < 50 }
    ensures { result ≡ up_to 4 failure exponent 0 }
{
    if 4 <= reached_by(failure) {
        exponent as u8
    } else {
        0
    }
}

// The parts up to the failure.
pub(crate) fn cut_parts(failure: Option<Failure>, parts: Parts) -> Parts
    ensures { result ≡ cut_parts failure parts }
{
    Parts {
        after_row: number_up_to(1, failure, parts.after_row),
        column: part_up_to(1, failure, parts.column),
        after_column: number_up_to(2, failure, parts.after_column),
        remainder: part_up_to(2, failure, parts.remainder),
        numerator: number_up_to(3, failure, parts.numerator),
        ..parts
    }
}

// The entry that a table has for a numerator over a power of two.
#[tactic(auto, unfolding(util::specs::Sums::in16))]
fn entry_of(table: Table, numerator: i32, exponent: u16) -> Entry
    requires { (nat_abs numerator < 2 ^ 24) × (exponent < 50) × (in16 (tested_sum table numerator) ≡ true) }
    ensures { result ≡ entry_from table numerator exponent }
{
    match table {
        Table::Offset => Entry::Whole(numerator as i16),
        Table::Alpha | Table::Kta => Entry::Fraction(over_power(numerator, usize::from(exponent))),
    }
}

// The entry, where nothing fails.
pub(crate) fn entry_up_to(
    failure: Option<Failure>,
    table: Table,
    numerator: i32,
    exponent: u16,
) -> Option<Entry>
    requires { (nat_abs numerator < 2 ^ 24) × (exponent < 50) × (failure ≡ None → in16 (tested_sum table numerator) ≡ true) }
    ensures { result ≡ up_to 4 failure (Some (entry_from table numerator exponent)) None }
{
    match failure {
        None => Some(entry_of(table, numerator, exponent)),
        Some(_) => None,
    }
}
