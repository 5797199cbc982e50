// The words and numbers that lines and sentences are made of.
ghost use Rattle.std.specs.Prelude.{◌≡◌, ◌-◌, ◌^◌};
ghost use Rattle.listing.specs.Inner.Typing.{typed};
ghost use Rattle.wording.specs.Wording.{table_name, spread, address_text, bits_text, signed_text, entry_text, excess_text};

use explanation::{Entry, Part};
use listing::{put_decimal, put_digit, put_float, put_text, put_whole};
use refusal::Table;
use util::magnitude;

// A table's name.
pub(crate) fn put_table_name(out: &mut [u8], at: usize, table: Table) -> usize
    ensures { (out.new, result) ≡ typed (table_name table) (out.old, at) }
{
    match table {
        Table::Offset => put_text(out, at, b"offset"),
        Table::Alpha => put_text(out, at, b"alpha"),
        Table::Kta => put_text(out, at, b"k_ta"),
    }
}

// Whether a table has rows and columns.
pub(crate) fn is_spread(table: Table) -> bool
    ensures { result ≡ spread table }
{
    match table {
        Table::Offset | Table::Alpha => true,
        Table::Kta => false,
    }
}

// A word's address.
pub(crate) fn put_address(out: &mut [u8], at: usize, address: u16) -> usize
    ensures { (out.new, result) ≡ typed (address_text address) (out.old, at) }
{
    let n = address as u32;
    let a = put_text(out, at, b"0x");
    let b = put_digit(out, a, n / 0x1000);
    let c = put_digit(out, b, n / 0x100);
    let d = put_digit(out, c, n / 0x10);
    put_digit(out, d, n)
}

// The highest and the lowest bit of a field.
pub(crate) fn put_bits(out: &mut [u8], at: usize, part: Part) -> usize
    ensures { (out.new, result) ≡ typed (bits_text part) (out.old, at) }
{
    let a = put_decimal(out, at, part.high as u64);
    let b = put_text(out, a, b"..");
    put_decimal(out, b, part.low as u64)
}

// A number of a sum after its first.
pub(crate) fn put_signed(out: &mut [u8], at: usize, z: i32) -> usize
    ensures { (out.new, result) ≡ typed (signed_text z) (out.old, at) }
{
    let n = magnitude(z) as u64;
    if z < 0 {
        let next = put_text(out, at, b" - ");
        put_decimal(out, next, n)
    } else {
        let next = put_text(out, at, b" + ");
        put_decimal(out, next, n)
    }
}

// An entry.
pub(crate) fn put_entry(out: &mut [u8], at: usize, entry: Option<Entry>) -> usize
    ensures { (out.new, result) ≡ typed (entry_text entry) (out.old, at) }
{
    match entry {
        None => put_text(out, at, b"none"),
        Some(Entry::Whole(z)) => put_whole(out, at, z),
        Some(Entry::Fraction(x)) => put_float(out, at, x),
    }
}

// How far above the most a number is: 0 where it isn't.
fn above(most: u32, n: u32) -> u32
    ensures { result ≡ n - most }
{
    n.saturating_sub(most)
}

// By how much a sum is too high or too low.
pub(crate) fn put_excess(out: &mut [u8], at: usize, z: i32) -> usize
    ensures { (out.new, result) ≡ typed (excess_text z) (out.old, at) }
{
    let n = magnitude(z);
    if z < 0 {
        let next = put_text(out, at, b"higher by ");
        put_decimal(out, next, above(32768, n) as u64)
    } else {
        let next = put_text(out, at, b"lower by ");
        put_decimal(out, next, above(32767, n) as u64)
    }
}

// The size of the lowest field that fits at a scale.
pub(crate) fn room_at(scale: u8) -> u16
    ensures { result ≡ 2 ^ (15 - scale) }
{
    if scale < 16 {
        util::power_of_two(15 - scale as u32)
    } else {
        1
    }
}
