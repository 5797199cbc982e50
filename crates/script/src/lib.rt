// A program's table on standard input, row by row. A row has places of five bytes: a word of up to four letters, of which the first counts, or a
// number of four hexadecimal digits, and a space. Texts may follow, each behind a bar.

#![tactic(auto)]

ghost use Rattle.std.specs.Prelude.{◌<◌, ◌^◌};

use input::fill;
use std::io::Read;

// The table that a program reads, in the room that is lent: as much of it as there is room for. A failed read ends it, as the input's end does.
pub fn read_table<'a, R: Read>(reader: &mut R, room: &'a mut [u8; 65536]) -> &'a [u8] {
    let count = match fill(reader, room) {
        Ok(count) => count,
        Err(broken) => broken.count,
    };
    front(room, count)
}

// The first n bytes, or all where there are no more.
pub fn front(bytes: &[u8], n: usize) -> &[u8] {
    bytes.get(..n).unwrap_or(bytes)
}

// What stands before the first such byte and what stands behind it, where there is one.
pub fn split_once(mark: u8, text: &[u8]) -> Option<(&[u8], &[u8])> {
    let end = text.iter().position(|b| *b == mark)?;
    Some((&text[..end], &text[end + 1..]))
}

// The same; where there is none, all of it, and nothing.
pub fn cut(mark: u8, text: &[u8]) -> (&[u8], &[u8]) {
    split_once(mark, text).unwrap_or((text, &[]))
}

// Sets the word at an address of the image, or behind it.
fn set_word(image: &mut [u8; 2496], address: u16, value: u16) {
    if (0x2400..0x2800).contains(&address) {
        let at = 2 * (address - 0x2400) as usize;
        image[at..at + 2].copy_from_slice(&value.to_be_bytes());
    }
}

// A row of a table, as it stands there.
#[derive(Clone, Copy)]
pub struct Row<'a>(pub &'a [u8]);

impl<'a> Row<'a> {
    // What stands before the first bar.
    pub fn places(self) -> Row<'a> {
        Row(cut(b'|', self.0).0)
    }

    // What stands behind the first bar.
    pub fn text(self) -> &'a [u8] {
        cut(b'|', self.0).1
    }

    // What stands at a byte, 0 past the end.
    fn byte(self, at: usize) -> u8 {
        self.0.get(at).copied().unwrap_or(0)
    }

    // The value of the hexadecimal digit at a byte, 0 where there is none: a lower-case letter is none, which to_digit would take for one.
    fn digit(self, at: usize) -> u8
        ensures { result < 16 }
    {
        match self.byte(at) {
            b @ b'0'..=b'9' => b - b'0',
            b @ b'A'..=b'F' => b - b'A' + 10,
            _ => 0,
        }
    }

    // The first letter of the word at a place.
    pub fn letter(self, place: usize) -> u8 {
        self.byte(start_of(place))
    }

    // The number at a place.
    pub fn number(self, place: usize) -> u16 {
        let at = start_of(place);
        let high = 16 * self.digit(at) + self.digit(at + 1);
        let low = 16 * self.digit(at + 2) + self.digit(at + 3);
        u16::from_be_bytes([high, low])
    }

    // How many pairs of places there are from the second place on.
    pub fn pairs(self) -> usize
        ensures { result < 2 ^ 60 }
    {
        self.0.len() / 10
    }

    // The image that is zero but for the row's words, an address, its value, and so on, with as much room behind its 1,664 bytes as a gathering has.
    pub fn image(self) -> [u8; 2496] {
        let mut image = [0; 2496];
        for pair in 0..self.pairs() {
            let place = 2 * pair + 1;
            set_word(&mut image, self.number(place), self.number(place + 1));
        }
        image
    }

    // The bytes of the row: the numbers from its second place on. There is room for 16; a seventeenth takes the first one's place, and so on.
    pub fn block(self, room: &mut [u8; 16]) -> &[u8] {
        let count = self.0.len() / 5;
        for i in 0..count {
            room[i % 16] = (self.number(i + 1) % 256) as u8;
        }
        front(room, count)
    }
}

// Where a place of a row begins. No more than a thousand are told apart: those behind place 1000 begin where it does.
fn start_of(place: usize) -> usize
    ensures { result < 65536 }
{
    5 * place.min(1000)
}
