// An explanation of a number of the image. The 76 bytes of which a slice is lent are A5 before the call, so that a refused call that writes shows.
use crate::lent::Lent;
use crate::say::answer;
use mofuleka::mofuleka_explain;
use script::Row;
use std::io::Result;
use util::word;

// Asks, and prints the answer, all that the slice then holds, and what follows it.
pub fn explained(rt: &impl Print, lent: &Lent, row: Row<'_>) -> Result<()> {
    let mut out = [0xA5u8; 76];
    let n = (row.number(3) as usize).min(76);
    let table = row.number(1) as u32;
    let pixel = row.number(2) as usize;
    let found = mofuleka_explain(lent.image(), table, pixel, &mut out[..n]);
    answer(rt, row, found)?;
    print!(rt; "  explanation")?;
    for i in 0..38 {
        print!(rt; " {:04x}", word(&out, i))?;
    }
    println!(rt)
}
