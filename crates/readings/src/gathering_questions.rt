// Questions to a gathering.
use crate::line::Line;
use crate::question::Question;
use gathering::{Gathering, mark_number};
use std::fmt;

pub fn of_gathering(line: &mut Line, gathering: &Gathering, question: Question) -> fmt::Result {
    let known = gathering.word(question.n as usize);
    match question.kind {
        b't' => {
            let (mark, value) = match known {
                Ok(word) => (mark_number(word.mark), word.value),
                Err(_) => (0, 0),
            };
            line.value(mark)?;
            line.value(value)
        }
        b'T' => line.verdict(known),
        b's' => {
            let status = gathering.status();
            line.value(status.missing)?;
            line.value(status.in_conflict)
        }
        b'S' => line.verdict(gathering.fault()),
        _ => Ok(()),
    }
}
