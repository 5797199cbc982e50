// A glance at the rows of a table: from the numbers that it keeps, a row shows at once that none of its pixels can have a fault.
ghost use Rattle.std.specs.Prelude.{◌≡◌, false, ◌<◌, ◌≤◌};
ghost use Rattle.util.specs.Words.{listed};
ghost use Rattle.walk.specs.Inner.Rows.{Small, RowInside, Vouches};

use crate::terms::scaled;
use camera::PIXEL_CALIBRATION;
use refusal::Table;
use util::{i16_from_bits, outside};

// What the pixels of a table's rows share and what those of its columns share; the columns are given twice, for even rows and for odd ones. A remainder has
// width bits of its pixel's word from bit low up, and is to be multiplied by power. The glance counts in the first rows alone, so many of them.
#[derive(Clone, Copy)]
pub(crate) struct Glance<'a> {
    pub words: &'a [u16; 832],
    pub table: Table,
    pub vouched: usize,
    pub rows: &'a [i32; 24],
    pub columns: &'a [i32; 64],
    pub low: u32,
    pub width: u32,
    pub power: u16,
    ghost power_small: { power ≤ 32768 },
    ghost rows_small: { Small 24 rows.now },
    ghost columns_small: { Small 64 columns.now },
    ghost vouches: { Vouches (listed words.now) table rows.now columns.now low width power vouched },
}

impl<'a> Glance<'a> {
    // Whether a remainder's term or an entry of row r may be outside 16 bits. The loop has no branch, so that many pixels go through at once.
    pub(crate) fn leaves(&self, r: usize) -> bool
        requires { r < 24 }
        ensures { result ≡ false → RowInside (listed self.now.words.now) self.now.rows.now self.now.columns.now self.now.low self.now.width self.now.power r }
    {
        let row = self.rows[r];
        let mut found = false;
        for c in 0..32 {
            let word = self.words[PIXEL_CALIBRATION + (32 * r + c)];
            let own = scaled(i16_from_bits(word, self.low, self.width), self.power);
            let entry = row + self.columns[32 * (r % 2) + c] + own;
            found |= outside(own) | outside(entry);
        }
        found
    }
}
