// The lines of an explanation: which pixel it is, its fields, and their sums, up to the failure.
// The flags `given` are no Options: the part is there in any case, and the flag says whether it is shown. A closure for the line would need a contract on the
// buffer in each place.
ghost use Rattle.std.specs.Prelude.{◌≡◌, not, ◌++◌, leb};
ghost use Rattle.refusal.specs.Code.{code_of, accepted_by};
ghost use Rattle.listing.specs.Text.{ascii};
ghost use Rattle.listing.specs.Listing.{refused_line};
ghost use Rattle.listing.specs.Inner.Typing.{typed};
ghost use Rattle.explanation.specs.Explanation.{reached};
ghost use Rattle.wording.specs.Wording.{when, spread, signed_text, number_line, pixel_line, place_text, part_line, sum_line, shared_lines, part_lines, opening};

use crate::words::{is_spread, put_address, put_bits, put_signed, put_table_name};
use explanation::{Explanation, Failure, Part, Parts, reached_by};
use listing::{put_byte, put_decimal, put_integer, put_refused, put_text, put_whole};
use refusal::{Table, Verdict, code_of};

// A line with one number.
fn put_number_line(out: &mut [u8], at: usize, name: &[u8], z: i32) -> usize
    ensures { (out.new, result) ≡ typed (number_line name.now z) (out.old, at) }
{
    let a = put_text(out, at, name);
    let b = put_integer(out, a, z);
    put_byte(out, b, b'\n')
}

// The line of a pixel: its number, its row and its column.
fn put_pixel_line(out: &mut [u8], at: usize, p: u32) -> usize
    ensures { (out.new, result) ≡ typed (pixel_line p) (out.old, at) }
{
    let a = put_text(out, at, b"pixel ");
    let b = put_decimal(out, a, p as u64);
    let c = put_text(out, b, b" row ");
    let d = put_decimal(out, c, (p / 32) as u64);
    let e = put_text(out, d, b" column ");
    let f = put_decimal(out, e, (p % 32) as u64);
    put_byte(out, f, b'\n')
}

// Where a field stands and what it holds, behind its name.
fn put_place(out: &mut [u8], at: usize, name: &[u8], part: Part) -> usize
    ensures { (out.new, result) ≡ typed (place_text name.now part) (out.old, at) }
{
    let a = put_text(out, at, name);
    let b = put_text(out, a, b" address ");
    let c = put_address(out, b, part.address);
    let d = put_text(out, c, b" bits ");
    let e = put_bits(out, d, part);
    let f = put_text(out, e, b" raw ");
    put_decimal(out, f, part.raw as u64)
}

// The line of a field.
fn put_part(out: &mut [u8], at: usize, name: &[u8], part: Part) -> usize
    ensures { (out.new, result) ≡ typed (part_line name.now part) (out.old, at) }
{
    let a = put_place(out, at, name, part);
    let b = put_text(out, a, b" value ");
    let c = put_whole(out, b, part.value);
    let d = put_text(out, c, b" scale ");
    let e = put_decimal(out, d, part.scale as u64);
    let f = put_text(out, e, b" term ");
    let g = put_integer(out, f, part.term);
    put_byte(out, g, b'\n')
}

// The row's and the column's term in a sum, where a table has them.
#[tactic(auto, using(listing::proofs::Typing::done))]
fn put_shared_terms(given: bool, out: &mut [u8], at: usize, parts: Parts) -> usize
    ensures { (out.new, result) ≡ typed (when given (signed_text parts.row.term ++ signed_text parts.column.term)) (out.old, at) }
{
    if given {
        let a = put_signed(out, at, parts.row.term);
        put_signed(out, a, parts.column.term)
    } else {
        at
    }
}

// The sum written out, where it is reached.
#[tactic(auto, using(listing::proofs::Typing::done))]
fn put_sum(given: bool, out: &mut [u8], at: usize, table: Table, parts: Parts) -> usize
    ensures { (out.new, result) ≡ typed (when given (sum_line table parts)) (out.old, at) }
{
    if !given {
        return at;
    }
    let a = put_text(out, at, b"sum ");
    let b = put_integer(out, a, parts.average.term);
    let c = put_shared_terms(is_spread(table), out, b, parts);
    let d = put_signed(out, c, parts.remainder.term);
    let e = put_text(out, d, b" = ");
    let f = put_integer(out, e, parts.numerator);
    put_byte(out, f, b'\n')
}

// The sum after the row, and the column, where they are reached.
#[tactic(auto, using(listing::proofs::Typing::done))]
fn put_column(given: bool, out: &mut [u8], at: usize, parts: Parts) -> usize
    ensures { (out.new, result) ≡ typed (when given (number_line (ascii "after_row ") parts.after_row ++ part_line (ascii "column") parts.column)) (out.old, at) }
{
    if given {
        let a = put_number_line(out, at, b"after_row ", parts.after_row);
        put_part(out, a, b"column", parts.column)
    } else {
        at
    }
}

// The sum after the column, where it is reached.
#[tactic(auto, using(listing::proofs::Typing::done))]
fn put_after_column(given: bool, out: &mut [u8], at: usize, z: i32) -> usize
    ensures { (out.new, result) ≡ typed (when given (number_line (ascii "after_column ") z)) (out.old, at) }
{
    if given {
        put_number_line(out, at, b"after_column ", z)
    } else {
        at
    }
}

// The row and the column, where a table has them, as far as they are reached.
#[tactic(auto, using(listing::proofs::Typing::done))]
fn put_shared(
    given: bool,
    out: &mut [u8],
    at: usize,
    failure: Option<Failure>,
    parts: Parts,
) -> usize
    ensures { (out.new, result) ≡ typed (when given (shared_lines failure parts)) (out.old, at) }
{
    if !given {
        return at;
    }
    let reached = reached_by(failure);
    let a = put_part(out, at, b"row", parts.row);
    let b = put_column(1 <= reached, out, a, parts);
    put_after_column(2 <= reached, out, b, parts.after_column)
}

// The remainder, where it is reached.
#[tactic(auto, using(listing::proofs::Typing::done))]
fn put_remainder(given: bool, out: &mut [u8], at: usize, part: Part) -> usize
    ensures { (out.new, result) ≡ typed (when given (part_line (ascii "remainder") part)) (out.old, at) }
{
    if given {
        put_part(out, at, b"remainder", part)
    } else {
        at
    }
}

// The fields and their sums, up to the failure.
pub(crate) fn put_part_lines(
    out: &mut [u8],
    at: usize,
    failure: Option<Failure>,
    table: Table,
    parts: Parts,
) -> usize
    ensures { (out.new, result) ≡ typed (part_lines failure table parts) (out.old, at) }
{
    let reached = reached_by(failure);
    let a = put_part(out, at, b"average", parts.average);
    let b = put_shared(is_spread(table), out, a, failure, parts);
    let c = put_remainder(2 <= reached, out, b, parts.remainder);
    put_sum(3 <= reached, out, c, table, parts)
}

// The line of the decoder's refusal, where there is one.
#[tactic(auto, using(listing::proofs::Typing::done))]
fn put_found(out: &mut [u8], at: usize, found: Verdict) -> usize
    ensures { (out.new, result) ≡ typed (when (not (accepted_by found)) (refused_line (code_of found))) (out.old, at) }
{
    match found {
        Ok(()) => at,
        Err(_) => put_refused(out, at, code_of(found)),
    }
}

// Which pixel it is.
pub(crate) fn put_opening(out: &mut [u8], at: usize, e: Explanation) -> usize
    ensures { (out.new, result) ≡ typed (opening e) (out.old, at) }
{
    let a = put_found(out, at, e.found);
    let b = put_text(out, a, b"table ");
    let c = put_table_name(out, b, e.table);
    let d = put_byte(out, c, b'\n');
    put_pixel_line(out, d, e.pixel)
}
