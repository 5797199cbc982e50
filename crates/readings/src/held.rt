// What the rows before a question have set up: an image, what the decoder answered to it or to a gathering, and the gathering.
ghost use Rattle.std.specs.Prelude.{◌≤◌};

use eeprom::from_data;
use gathering::Gathering;
use record::{Record, blank_record};
use refusal::Verdict;
use script::{Row, front};

// The length stands beside the image since a row can cut the same bytes elsewhere. The verdict is that of the last call. The tables have room for two entries more
// than the decoder fills.
#[derive(Clone, Copy)]
pub struct Held {
    image: [u8; 2496],
    length: usize,
    pub verdict: Verdict,
    pub record: Record,
    pub offset: [i16; 770],
    pub alpha: [f32; 770],
    pub k_ta: [f32; 770],
    pub gathering: Gathering,
}

// How many entries a table is to have: a digit 8 stands for 768, 7 for 767, 1 for 1 and 0 for 770.
fn entries(digits: u16) -> usize
    ensures { result ≤ 770 }
{
    match digits % 16 {
        8 => 768,
        7 => 767,
        1 => 1,
        _ => 770,
    }
}

impl Held {
    // The first bytes of an image, decoded over tables of so many entries that are all the same before, and a fresh gathering.
    fn decoded(image: [u8; 2496], length: usize, digits: u16, before: i16) -> Self {
        let mut offset = [before; 770];
        let mut alpha = [before as f32; 770];
        let mut k_ta = [before as f32; 770];
        let answer = from_data(
            front(&image, length),
            &mut offset[..entries(digits / 256)],
            &mut alpha[..entries(digits / 16)],
            &mut k_ta[..entries(digits)],
        );
        Held {
            image,
            length,
            verdict: answer.map(|_| ()),
            record: answer.unwrap_or(blank_record()),
            offset,
            alpha,
            k_ta,
            gathering: Gathering::fresh(),
        }
    }

    // An image, decoded over tables of zeros.
    pub fn of_image(image: [u8; 2496], length: usize) -> Self {
        Held::decoded(image, length, 0, 0)
    }

    // The same image, decoded over tables of sevens.
    pub fn over(&self, digits: u16) -> Self {
        Held::decoded(self.image, self.length, digits, 7)
    }

    pub fn image(&self) -> &[u8] {
        front(&self.image, self.length)
    }

    // Decodes the gathering in the place of the image.
    fn decode_gathering(&mut self) {
        let mut offset = [0; 768];
        let mut alpha = [0.0; 768];
        let mut k_ta = [0.0; 768];
        let answer = self
            .gathering
            .calibration(&mut offset, &mut alpha, &mut k_ta);
        self.verdict = answer.map(|_| ());
        self.record = answer.unwrap_or(blank_record());
    }

    // Hands the gathering a block.
    fn take(&mut self, block: &[u8]) {
        let answer = self.gathering.accept(block);
        self.gathering = answer.gathering;
        self.verdict = answer.verdict;
    }

    // Sets up what a row says.
    pub fn prepare(&mut self, row: Row<'_>) {
        let a = row.number(1);
        match row.letter(0) {
            b'w' => *self = Held::of_image(row.image(), 1664),
            b'c' => *self = Held::of_image(self.image, a as usize),
            b'f' => *self = Held::of_image([(a % 256) as u8; 2496], row.number(2) as usize),
            b'o' => *self = self.over(0),
            b't' => self.take(row.block(&mut [0; 16])),
            b'd' => self.decode_gathering(),
            _ => {}
        }
    }
}
