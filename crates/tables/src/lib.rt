// The three lent tables, written from an image's words in which the walk has found no fault.

#![tactic(auto)]

ghost use Rattle.std.specs.Prelude.{◌≡◌, true, ℕ, ◌<◌, ◌≤◌, pos, ◌*ℤ◌, length, get_or};
ghost use Rattle.refusal.specs.Code.{accepted};
ghost use Rattle.util.specs.Words.{listed};
ghost use Rattle.util.specs.Sums.{in16};
ghost use Rattle.steps.specs.Steps.{first_outside};
ghost use Rattle.walk.specs.Walk.{walk};
ghost use Rattle.util.specs.Lists.{written};
ghost use Rattle.tables.specs.Entries.{offset_at, alpha_at, kta_at};
ghost use Rattle.tables.specs.Inner.Sums.{sum_of, pixel_sum, Takes, Made};

mod sums;

use camera::{OFFSET_COMPENSATION, SENSITIVITY_SCALE, V_AND_TA_SCALE};
use exact::{over, up_power};
use std::array;
use sums::Sums;
use util::u16_from_bits;
use walk::{column_terms, k_ta_columns, row_sums, scale_power, scaled};

// x in 16 bits, where they hold it.
fn narrow(x: i32) -> i16
    requires { in16 x ≡ true }
    ensures { result ≡ x }
{
    x as i16
}

// f x power, where 16 bits hold it.
fn times(f: i16, power: u16) -> i16
    requires { (power ≤ 32768) × (in16 (f *ℤ pos power) ≡ true) }
    ensures { result ≡ f *ℤ pos power }
{
    narrow(scaled(f, power))
}

// Row r of a table: what entry makes of each sum.
fn write_row<T: Copy, F: Fn(i32) -> T + Copy>(sums: &Sums, r: usize, entry: F, out: &mut [T])
    requires row { r < 24 }
    requires room { length out.old ≡ 32 }
    requires callable { Takes (F.pre entry) (sum_of sums.now r) 32 }
    ensures { Made (F.post entry) (sum_of sums.now r) 32 out.old out.new }
{
    for (c, place) in out.iter_mut().enumerate() {
        let sum = sums.at(r, c);
        *place = entry(sum);
    }
}

// A table, row by row: what entry makes of each pixel's sum.
fn write_rows<T: Copy, F: Fn(i32) -> T + Copy>(sums: &Sums, entry: F, out: &mut [T])
    requires room { 768 ≤ length out.old }
    requires callable { Takes (F.pre entry) (pixel_sum sums.now) 768 }
    ensures { Made (F.post entry) (pixel_sum sums.now) 768 out.old out.new }
{
    // By ranges, and not by chunks_exact_mut: once what that lends is given back, a proof knows a slice's length alone.
    for r in 0..24 {
        let start = 32 * r;
        write_row(sums, r, entry, &mut out[start..start + 32]);
    }
}

// The same numbers in 16 bits, as the loops over a row read them.
fn narrowed(wide: &[i32; 64]) -> [i16; 64]
    requires { (i : ℕ) → i < 64 → in16 (get_or wide.now i (pos 0)) ≡ true }
    ensures { (i : ℕ) → i < 64 → get_or result i (pos 0) ≡ get_or wide.now i (pos 0) }
{
    array::from_fn(|i| narrow(wide[i]))
}

// The offset table.
// The three ask by a clause, and not by a type, that the walk refuses nothing: eeprom/refused_writes, which drops the walk's answer, is refused by it. That there is room for
// 768 entries is a clause as well: the slices are lent by C, and `from_data` tests them. Alike but for their words and scales, which one over all would take.
pub fn fill_offset(words: &[u16; 832], out: &mut [i16])
    requires { (first_outside (walk (listed words.now)) ≡ accepted) × (768 ≤ length out.old) }
    ensures { out.new ≡ written 768 (offset_at (listed words.now)) out.old }
{
    let sums = Sums {
        words,
        rows: &row_sums(words, OFFSET_COMPENSATION),
        columns: &narrowed(&column_terms(words, OFFSET_COMPENSATION)),
        low: 10,
        width: 6,
        power: scale_power(words, OFFSET_COMPENSATION, 0),
    };
    write_rows(&sums, narrow, out);
}

// The alpha table.
pub fn fill_alpha(words: &[u16; 832], out: &mut [f32])
    requires { (first_outside (walk (listed words.now)) ≡ accepted) × (768 ≤ length out.old) }
    ensures { out.new ≡ written 768 (alpha_at (listed words.now)) out.old }
{
    let sums = Sums {
        words,
        rows: &row_sums(words, SENSITIVITY_SCALE),
        columns: &narrowed(&column_terms(words, SENSITIVITY_SCALE)),
        low: 4,
        width: 6,
        power: scale_power(words, SENSITIVITY_SCALE, 0),
    };
    let divisor = up_power(usize::from(u16_from_bits(words[SENSITIVITY_SCALE], 12, 4)) + 30);
    write_rows(&sums, |sum| over(sum, divisor), out);
}

// The Kta table.
pub fn fill_k_ta(words: &[u16; 832], out: &mut [f32])
    requires { (first_outside (walk (listed words.now)) ≡ accepted) × (768 ≤ length out.old) }
    ensures { out.new ≡ written 768 (kta_at (listed words.now)) out.old }
{
    let sums = Sums {
        words,
        rows: &[0; 24],
        columns: &narrowed(&k_ta_columns(words)),
        low: 1,
        width: 3,
        power: scale_power(words, V_AND_TA_SCALE, 0),
    };
    let divisor = up_power(usize::from(u16_from_bits(words[V_AND_TA_SCALE], 4, 4)) + 8);
    write_rows(&sums, |sum| over(sum, divisor), out);
}
