// Calls the functions of the C interface, accepted and refused, and prints every answer and what the lent memory then holds. The calls stand on
// standard input, a row for each; the table's head says what a row can be. The gate holds each line to the stored answers (stdout), which stand
// beside docs/INTERFACE.md: an answer that moved shows here.

#![tactic(auto)]

mod decoding;
mod explanations;
mod gatherings;
mod lent;
mod pixels;
mod questions;
mod rows;
mod say;
mod sizes;

use rows::all_rows;
use script::read_table;
use std::io::Result;

fn main(rt: HostRuntime) -> Result<()> {
    let mut room = [0; 65536];
    all_rows(&rt, read_table(&mut rt.stdin(), &mut room))
}
