// The first number of a pixel that 16 bits don't hold: its terms come first, and then its sum. No camera's own list of steps is here.

#![tactic(auto)]

ghost use Rattle.std.specs.Prelude.{◌≡◌, [], ◌∷◌};
ghost use Rattle.steps.specs.Steps.{first_outside};
ghost use Rattle.steps.specs.Steps as steps;

use refusal::{Refusal, Table, Verdict};
use util::outside;

// The first fault of a pixel with at most three terms and a sum. For what a pixel doesn't have the caller hands over 0.
#[tactic(auto, unfolding(crate::specs::Steps::first_outside))]
pub fn first_of(table: Table, p: u32, row: i32, column: i32, own: i32, total: i32) -> Verdict
    ensures { result ≡ first_outside (steps.term table p row ∷ steps.term table p column ∷ steps.term table p own ∷ steps.sum table p total ∷ []) }
{
    if outside(row) || outside(column) || outside(own) {
        return Err(Refusal::TermOutside(table, p));
    }
    if outside(total) {
        return Err(Refusal::SumOutside(table, p));
    }
    Ok(())
}
