// Calls on gatherings in lent bytes: fresh, blocks taken and refused, merges, counts and words.
use crate::lent::{Lent, room};
use crate::questions::record_answer;
use crate::say::{answer, holds};
use mofuleka::{
    mofuleka_gathering_accept, mofuleka_gathering_fresh, mofuleka_gathering_merge,
    mofuleka_gathering_status, mofuleka_gathering_word,
};
use script::Row;
use std::io::Result;

// The answer to a question to the gathering, or to any other.
pub fn gathering_answer(lent: &Lent, row: Row<'_>) -> u64 {
    match row.letter(0) {
        b's' => mofuleka_gathering_status(lent.gathering()),
        b't' => mofuleka_gathering_word(lent.gathering(), row.number(1) as usize),
        _ => record_answer(lent, row),
    }
}

// Makes a call that may change the gathering, where a row is one: a block is handed to it, the other is merged into it, or it is made fresh.
fn changed(gathering: &mut [u8], other: &[u8], row: Row<'_>) -> Option<u64> {
    let mut bytes = [0; 16];
    match row.letter(0) {
        b'A' => {
            let block = row.places().block(&mut bytes);
            Some(mofuleka_gathering_accept(gathering, block))
        }
        b'M' => Some(mofuleka_gathering_merge(gathering, other)),
        b'F' => Some(mofuleka_gathering_fresh(gathering)),
        _ => None,
    }
}

// Makes such a call, and prints the answer and what the gathering then holds.
pub fn change(rt: &impl Print, lent: &mut Lent, row: Row<'_>) -> Result<()> {
    let n = room(2496, lent.short);
    let other = lent.other;
    let m = room(2496, row.number(1) != 0);
    match changed(&mut lent.gathering[..n], &other[..m], row) {
        Some(word) => {
            answer(rt, row, word)?;
            holds(rt, "gathering", lent.gathering())
        }
        None => Ok(()),
    }
}
