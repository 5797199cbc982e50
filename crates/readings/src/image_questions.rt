// Questions to the image as a whole: its listing, and what comes of tables that are too short.
use crate::held::Held;
use crate::line::{Line, listing};
use crate::question::Question;
use std::fmt;

// Whether an image has the listing of zeros.
fn is_listed_as_zeros(image: &[u8]) -> bool {
    listing(image, &mut [0; 1024]) == listing(&[0; 1664], &mut [0; 1024])
}

pub fn of_image(line: &mut Line, held: &Held, question: Question) -> fmt::Result {
    match question.kind {
        b'l' => line.word(if is_listed_as_zeros(held.image()) {
            "same"
        } else {
            "other"
        }),
        b'b' => line.verdict(held.over(question.n).verdict),
        _ => Ok(()),
    }
}
