// The scope's numbers of refusals and marks, written down here once more: one that moved in the library's code and in its definition alike shows as a difference.
use gathering::{Mark, mark_number};
use refusal::{Refusal, Verdict, code_of};

// The number of a verdict that a viewer can be given, and its place. 255 is no refusal's number.
fn number_and_place(verdict: Verdict) -> (u8, u32) {
    match verdict {
        Ok(()) => (0, 0),
        Err(Refusal::BlockLength) => (5, 0),
        Err(Refusal::BlockCount) => (6, 0),
        Err(Refusal::BlockVersion) => (7, 0),
        Err(Refusal::BlockRange) => (8, 0),
        Err(Refusal::WordInConflict(word)) => (9, word),
        Err(Refusal::WordMissing(word)) => (10, word),
        Err(Refusal::PastTheEnd) => (11, 0),
        Err(_) => (255, 0),
    }
}

// Whether a verdict is another than the expected one, or has another number or place.
pub fn is_other(found: Verdict, expected: Verdict) -> bool {
    let code = code_of(found);
    found != expected || (code.number, code.place) != number_and_place(expected)
}

// Whether a stored mark is another than the expected one, or that has another number.
pub fn is_other_mark(stored: u8, expected: Mark) -> bool {
    let number = match expected {
        Mark::Missing => 0,
        Mark::Held => 1,
        Mark::InConflict => 2,
    };
    stored != number || mark_number(expected) != number
}
