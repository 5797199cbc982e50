// A table row by row: a row is gone through pixel by pixel only where a glance doesn't show that it has no fault.
ghost use Rattle.std.specs.Prelude.{◌≡◌, ◌*◌, ◌<◌, ◌≤◌};
ghost use Rattle.util.specs.Words.{listed};
ghost use Rattle.steps.specs.Steps.{steps_from, first_outside};
ghost use Rattle.walk.specs.Walk.{pixel_steps, table_steps};
ghost use Rattle.walk.specs.Inner.Rows.{Fitting, SharedFit};

use crate::glances::Glance;
use crate::pixel::pixel;
use crate::terms::{Bulk, COLUMN_BULK, ROW_BULK, bulk_term};
use refusal::{Table, Verdict};
use util::outside;

// The first fault of row r of a table, pixel by pixel.
fn pixels(words: &[u16; 832], table: Table, r: usize) -> Verdict
    requires { r < 24 }
    ensures { result ≡ first_outside (steps_from (pixel_steps (listed words.now) table) 32 (32 * r)) }
{
    for c in 0..32 {
        pixel(words, table, 32 * r + c)?;
    }
    Ok(())
}

// The first fault of row r of a table. Among the first rows a glance passes over a row that has none.
fn row_refusal(glance: &Glance, r: usize) -> Verdict
    requires { r < 24 }
    ensures { result ≡ first_outside (steps_from (pixel_steps (listed glance.now.words.now) glance.now.table) 32 (32 * r)) }
{
    if r < glance.vouched {
        if !glance.leaves(r) {
            return Ok(());
        }
    }
    pixels(glance.words, glance.table, r)
}

// The first fault of a table, row by row.
pub(crate) fn table_refusal(glance: &Glance) -> Verdict
    ensures { result ≡ first_outside (table_steps (listed glance.now.words.now) glance.now.table) }
{
    for r in 0..24 {
        row_refusal(glance, r)?;
    }
    Ok(())
}

// How many of a bulk's terms fit 16 bits before the first that does not.
fn fitting(words: &[u16; 832], base: usize, bulk: Bulk) -> usize
    requires { base ≤ 32 }
    ensures { (result ≤ bulk.count) × Fitting (listed words.now) base bulk.first bulk.low result }
{
    let first_outside = (0..bulk.count).position(|k| outside(bulk_term(words, base, bulk, k)));
    first_outside.unwrap_or(bulk.count)
}

// How many rows come before the first whose term doesn't fit 16 bits; 0 where a column's term doesn't fit.
pub(crate) fn shared_fitting(words: &[u16; 832], base: usize) -> usize
    requires { base ≤ 32 }
    ensures shared_fit { SharedFit (listed words.now) base result }
    ensures upper_bound { result ≤ 24 }
{
    if fitting(words, base, COLUMN_BULK) < COLUMN_BULK.count {
        0
    } else {
        fitting(words, base, ROW_BULK)
    }
}
