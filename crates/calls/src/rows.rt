// The rows of the table: memory that is set up, and calls.
use crate::decoding::decoded;
use crate::explanations::explained;
use crate::gatherings::{change, gathering_answer};
use crate::lent::Lent;
use crate::pixels::single;
use crate::say::answer;
use crate::sizes::size;
use script::Row;
use std::io::Result;

// A call that leaves all that is lent as it is, but for what decoding, one pixel and an explanation fill. Rows of other calls come back, and rows that set up memory have no text.
fn call(rt: &impl Print, lent: &Lent, row: Row<'_>) -> Result<()> {
    if row.text().is_empty() {
        return Ok(());
    }
    match row.letter(0) {
        b'S' => size(rt, row),
        b'D' => decoded(rt, lent, row),
        b'O' => single(rt, lent, row),
        b'E' => explained(rt, lent, row),
        b'A' | b'M' | b'F' => Ok(()),
        _ => answer(rt, row, gathering_answer(lent, row)),
    }
}

// One row.
fn obey(rt: &impl Print, lent: &mut Lent, row: Row<'_>) -> Result<()> {
    call(rt, lent, row)?;
    lent.prepare(row);
    change(rt, lent, row)
}

// Every row of the table.
pub fn all_rows(rt: &impl Print, table: &[u8]) -> Result<()> {
    let mut lent = Lent::new();
    for line in table.split(|b| *b == b'\n') {
        obey(rt, &mut lent, Row(line))?;
    }
    Ok(())
}
