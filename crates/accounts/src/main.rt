// Explains the numbers of a table on standard input, a row for each, and prints each row with its explanation, whole. The gate holds every line to the stored output
// (stdout); the table's head says what a row can ask.

#![tactic(auto)]

use script::{Row, cut, front, read_table};
use std::io::Result;
use wording::explain_image;

// How many bytes of a row's image are handed over.
fn image_bytes(row: Row<'_>) -> usize {
    if row.letter(0) == b's' { 1663 } else { 1664 }
}

// Prints the explanation of a number of a row's image.
fn explain_row(rt: &impl Print, row: Row<'_>, table: u32, p: usize) -> Result<()> {
    let image = row.image();
    let mut text = [0; 2048];
    let length = explain_image(front(&image, image_bytes(row)), table, p, &mut text);
    rt.write_all(&text[..length])
}

// Prints a row, and what is answered.
fn tell(rt: &impl Print, row: Row<'_>) -> Result<()> {
    let asked = row.text();
    if asked.is_empty() {
        return Ok(());
    }
    rt.write_all(row.0)?;
    rt.write_all(b"\n")?;
    let (table, pixel) = cut(b' ', asked);
    match (asking::table(table), asking::pixel(pixel)) {
        (Some(table), Some(pixel)) => explain_row(rt, row.places(), table, pixel as usize),
        _ => rt.write_all(b"usage\n"),
    }
}

fn main(rt: HostRuntime) -> Result<()> {
    let mut room = [0; 65536];
    let table = read_table(&mut rt.stdin(), &mut room);
    for line in table.split(|b| *b == b'\n') {
        tell(&rt, Row(line))?;
    }
    Ok(())
}
