// The walk over an image's words that finds the first term, or the first final sum, outside 16 bits.

#![tactic(auto)]

ghost use Rattle.std.specs.Prelude.{◌≡◌};
ghost use Rattle.refusal.specs.declared.Table.TheVariants.{Offset, Alpha, Kta};
ghost use Rattle.util.specs.Words.{listed};
ghost use Rattle.steps.specs.Steps.{first_outside};
ghost use Rattle.walk.specs.Walk.{walk, table_steps};

mod calm;
mod glances;
mod pixel;
mod rows;
mod shared;
mod terms;

use calm::{calm_alpha, calm_k_ta, calm_offset};
use camera::{OFFSET_COMPENSATION, SENSITIVITY_SCALE, V_AND_TA_SCALE};
use glances::Glance;
pub use pixel::{fault_of, k_ta_terms, shared_terms};
use refusal::{Table, Verdict};
use rows::{shared_fitting, table_refusal};
pub use shared::{column_terms, k_ta_columns, row_sums};
pub use terms::{k_ta_average_low, k_ta_average_word, scale_power, scaled};

// The terms of a pixel in one table, and their sum with the average. A term that the table doesn't have is 0.
#[derive(Clone, Copy)]
pub struct PixelTerms {
    pub row: i32,
    pub column: i32,
    pub own: i32,
    pub sum: i32,
}

// The first fault of the offset table. The three tables differ in their bound, their rows and columns, and three constants, which one over all would take.
fn offset_refusal(words: &[u16; 832]) -> Verdict
    ensures { result ≡ first_outside (table_steps (listed words.now) Offset) }
{
    if calm_offset(words) {
        return Ok(());
    }
    let vouched = shared_fitting(words, OFFSET_COMPENSATION);
    let rows = row_sums(words, OFFSET_COMPENSATION);
    let columns = column_terms(words, OFFSET_COMPENSATION);
    let power = scale_power(words, OFFSET_COMPENSATION, 0);
    let glance = Glance {
        words,
        table: Table::Offset,
        vouched,
        rows: &rows,
        columns: &columns,
        low: 10,
        width: 6,
        power,
    };
    table_refusal(&glance)
}

// The first fault of the alpha table. It has no sum to test, so the glance at its rows is given zeros.
fn alpha_refusal(words: &[u16; 832]) -> Verdict
    ensures { result ≡ first_outside (table_steps (listed words.now) Alpha) }
{
    if calm_alpha(words) {
        return Ok(());
    }
    let vouched = shared_fitting(words, SENSITIVITY_SCALE);
    let rows = [0; 24];
    let columns = [0; 64];
    let power = scale_power(words, SENSITIVITY_SCALE, 0);
    let glance = Glance {
        words,
        table: Table::Alpha,
        vouched,
        rows: &rows,
        columns: &columns,
        low: 4,
        width: 6,
        power,
    };
    table_refusal(&glance)
}

// The first fault of the Kta table.
fn k_ta_refusal(words: &[u16; 832]) -> Verdict
    ensures { result ≡ first_outside (table_steps (listed words.now) Kta) }
{
    if calm_k_ta(words) {
        return Ok(());
    }
    let rows = [0; 24];
    let columns = k_ta_columns(words);
    let power = scale_power(words, V_AND_TA_SCALE, 0);
    let glance = Glance {
        words,
        table: Table::Kta,
        vouched: 24,
        rows: &rows,
        columns: &columns,
        low: 1,
        width: 3,
        power,
    };
    table_refusal(&glance)
}

// The first fault of the walk: offset table, then alpha, then Kta.
pub fn first_refusal(words: &[u16; 832]) -> Verdict
    ensures { result ≡ first_outside (walk (listed words.now)) }
{
    offset_refusal(words)?;
    alpha_refusal(words)?;
    k_ta_refusal(words)
}
