// Questions to what the decoder answered: the refusal, and entries of the three tables.
use crate::counting::how_many;
use crate::held::Held;
use crate::line::Line;
use crate::question::Question;
use std::fmt;

pub fn of_tables(line: &mut Line, held: &Held, question: Question) -> fmt::Result {
    let p = (question.n % 770) as usize;
    match question.kind {
        b'w' => line.verdict(held.verdict),
        b'o' => line.value(held.offset[p]),
        b'a' => line.float(held.alpha[p]),
        b'k' => line.float(held.k_ta[p]),
        b'O' | b'A' | b'K' | b'H' | b'L' | b'Z' => line.value(how_many(held, question)),
        _ => Ok(()),
    }
}
