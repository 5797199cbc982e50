// Which table and which pixel are explained: those that were asked for, or those that the decoder's refusal names.
ghost use Rattle.std.specs.Prelude.{◌≡◌};
ghost use Rattle.explanation.specs.Explanation.{table_in, pixel_in};

use refusal::{Refusal, Table, Verdict, code_of};

// The table that a refusal names, or else the one asked for. The walk refuses terms and sums alone, so that the last case is of no image.
pub(crate) fn table_in(found: Verdict, asked: Table) -> Table
    ensures { result ≡ table_in found asked }
{
    match found {
        Ok(()) => asked,
        Err(Refusal::TermOutside(table, _) | Refusal::SumOutside(table, _)) => table,
        Err(_) => Table::Offset,
    }
}

// The pixel that it names, or else the one asked for.
pub(crate) fn pixel_in(found: Verdict, asked: usize) -> usize
    ensures { result ≡ pixel_in found asked }
{
    let code = code_of(found);
    if code.is_accepted() {
        asked
    } else {
        code.place as usize
    }
}
