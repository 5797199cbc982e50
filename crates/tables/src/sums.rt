// The whole sums of a table's pixels: what the pixels of a row share, what those of a column share, and each pixel's own remainder.
ghost use Rattle.std.specs.Prelude.{◌≡◌, ◌^◌, ◌<◌, ◌≤◌, nat_abs};
ghost use Rattle.util.specs.Words.{listed};
ghost use Rattle.walk.specs.Inner.Rows.{row_entry, Small};
ghost use Rattle.tables.specs.Inner.Rows.{TermsFit};

use crate::times;
use camera::PIXEL_CALIBRATION;
use util::i16_from_bits;

// The columns are given twice, for even rows and for odd ones, and in 16 bits, so that many go through a loop at once. A remainder has width bits of
// its pixel's word from bit low up. Not one with the walk's Glance: its columns have 32 bits, and its invariant is another.
#[derive(Clone, Copy)]
pub(crate) struct Sums<'a> {
    pub words: &'a [u16; 832],
    pub rows: &'a [i32; 24],
    pub columns: &'a [i16; 64],
    pub low: u32,
    pub width: u32,
    pub power: u16,
    ghost rows_small: { Small 24 rows.now },
    ghost power_small: { power ≤ 32768 },
    ghost terms_fit: { TermsFit (listed words.now) low width power },
}

impl<'a> Sums<'a> {
    // The sum of column c of row r.
    pub(crate) fn at(&self, r: usize, c: usize) -> i32
        requires { (r < 24) × (c < 32) }
        ensures value { result ≡ row_entry (listed self.now.words.now) self.now.rows.now self.now.columns.now self.now.low self.now.width self.now.power r c }
        ensures result_bound { nat_abs result < 2 ^ 24 }
    {
        let word = self.words[PIXEL_CALIBRATION + (32 * r + c)];
        let own = times(i16_from_bits(word, self.low, self.width), self.power);
        self.rows[r] + i32::from(self.columns[32 * (r % 2) + c]) + i32::from(own)
    }
}
