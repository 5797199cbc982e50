// The memory that is lent to the calls, and the rows that set it up.
ghost use Rattle.std.specs.Prelude.{◌≤◌};

use mofuleka::mofuleka_from_data;
use script::{Row, front};
use std::mem::swap;

// How many bytes are lent: all, or all but one.
pub fn room(whole: usize, short: bool) -> usize
    ensures { result ≤ whole }
{
    whole.saturating_sub(short as usize)
}

// An image, of which so many bytes are lent, the record of an image, and two gatherings, of which the first may be lent a byte short. The length stands beside the image
// since a row can lend fewer of the same bytes, or more.
#[derive(Clone, Copy)]
pub struct Lent {
    image: [u8; 2496],
    length: usize,
    record: [u8; 122],
    pub gathering: [u8; 2496],
    pub short: bool,
    pub other: [u8; 2496],
}

// The record of an image.
fn record_of(image: &[u8; 2496]) -> [u8; 122] {
    let mut offset = [0u8; 1536];
    let mut alpha = [0u8; 3072];
    let mut k_ta = [0u8; 3072];
    let mut record = [0u8; 122];
    mofuleka_from_data(
        &image[..1664],
        &mut offset,
        &mut alpha,
        &mut k_ta,
        &mut record,
    );
    record
}

// The gathering that holds every word of an image.
fn holding(image: &[u8; 2496]) -> [u8; 2496] {
    let mut gathering = [1; 2496];
    gathering[..1664].copy_from_slice(&image[..1664]);
    gathering
}

impl Lent {
    pub fn new() -> Self {
        Lent {
            image: [0; 2496],
            length: 1664,
            record: [0; 122],
            gathering: [0; 2496],
            short: false,
            other: [0; 2496],
        }
    }

    pub fn image(&self) -> &[u8] {
        front(&self.image, self.length)
    }

    pub fn record(&self, short: bool) -> &[u8] {
        &self.record[..room(122, short)]
    }

    pub fn gathering(&self) -> &[u8] {
        &self.gathering[..room(2496, self.short)]
    }

    fn set_image(&mut self, image: [u8; 2496], length: usize) {
        self.image = image;
        self.length = length;
    }

    fn set_gathering(&mut self, gathering: [u8; 2496], short: bool) {
        self.gathering = gathering;
        self.short = short;
    }

    // Sets up what a row says.
    pub fn prepare(&mut self, row: Row<'_>) {
        let a = row.number(1);
        let b = row.number(2);
        match row.letter(0) {
            b'w' => self.set_image(row.image(), 1664),
            b'f' => self.set_image([0; 2496], a as usize),
            b'l' => self.length = a as usize,
            b'R' => self.record = record_of(&self.image),
            b'g' => self.set_gathering([(a % 256) as u8; 2496], b != 0),
            b'h' => {
                let all = holding(&self.image);
                self.set_gathering(all, false)
            }
            b'b' => self.gathering[(a % 2496) as usize] = (b % 256) as u8,
            b'e' => swap(&mut self.gathering, &mut self.other),
            _ => {}
        }
    }
}
