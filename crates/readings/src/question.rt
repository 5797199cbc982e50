// A question: the first letter of its word, and its number.
// A letter and no enum: it is the table's own text, which an enum would have to list once more.
use camera::{AccessPattern, Subpage};

#[derive(Clone, Copy)]
pub struct Question {
    pub kind: u8,
    pub n: u16,
}

impl Question {
    // The number's first digit is pattern and subpage: 0 and 1 are Interleave Zero and One, 2 and 3 Chess Zero and One.
    pub fn pattern(self) -> AccessPattern {
        if self.n < 0x2000 {
            AccessPattern::Interleave
        } else {
            AccessPattern::Chess
        }
    }

    pub fn subpage(self) -> Subpage {
        if self.n / 0x1000 % 2 == 0 {
            Subpage::Zero
        } else {
            Subpage::One
        }
    }

    // Its other digits are a pixel or a range.
    pub fn rest(self) -> usize {
        (self.n % 0x1000) as usize
    }
}
