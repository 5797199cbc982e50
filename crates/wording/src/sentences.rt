// What an explanation ends with: the entry, or a sentence on what failed, where its bits stand and what would fit.
ghost use Rattle.std.specs.Prelude.{◌≡◌};
ghost use Rattle.listing.specs.Inner.Typing.{typed};
ghost use Rattle.wording.specs.Wording.{when, term_text, fitting_text, term_sentence, shared_words, sum_sentence, entry_lines};

use crate::words::{is_spread, put_address, put_bits, put_entry, put_excess, room_at};
use explanation::{Explanation, Part, Parts};
use listing::{put_byte, put_decimal, put_integer, put_text, put_whole};
use refusal::Table;

// Whose term is outside, and where its field stands.
fn put_failed_term(out: &mut [u8], at: usize, name: &[u8], part: Part) -> usize
    ensures { (out.new, result) ≡ typed (term_text name.now part) (out.old, at) }
{
    let a = put_text(out, at, b"The ");
    let b = put_text(out, a, name);
    let c = put_text(out, b, b"'s term ");
    let d = put_integer(out, c, part.term);
    let e = put_text(out, d, b" is outside -32768..32767. Its field, bits ");
    let f = put_bits(out, e, part);
    let g = put_text(out, f, b" of word ");
    put_address(out, g, part.address)
}

// What it holds, and what would fit.
fn put_fitting(out: &mut [u8], at: usize, part: Part) -> usize
    ensures { (out.new, result) ≡ typed (fitting_text part) (out.old, at) }
{
    let room = room_at(part.scale) as u64;
    let most = room - 1;
    let a = put_text(out, at, b", holds ");
    let b = put_whole(out, a, part.value);
    let c = put_text(out, b, b"; at scale ");
    let d = put_decimal(out, c, part.scale as u64);
    let e = put_text(out, d, b" a field from -");
    let f = put_decimal(out, e, room);
    let g = put_text(out, f, b" to ");
    let h = put_decimal(out, g, most);
    put_text(out, h, b" would fit.\n")
}

// The sentence on a term.
pub(crate) fn put_term_sentence(out: &mut [u8], at: usize, name: &[u8], part: Part) -> usize
    ensures { (out.new, result) ≡ typed (term_sentence name.now part) (out.old, at) }
{
    let a = put_failed_term(out, at, name, part);
    put_fitting(out, a, part)
}

// The words of the row and the column, where a table has them.
#[tactic(auto, using(listing::proofs::Typing::done))]
fn put_shared_words(given: bool, out: &mut [u8], at: usize, parts: Parts) -> usize
    ensures { (out.new, result) ≡ typed (when given (shared_words parts)) (out.old, at) }
{
    if !given {
        return at;
    }
    let a = put_text(out, at, b", ");
    let b = put_address(out, a, parts.row.address);
    let c = put_text(out, b, b", ");
    put_address(out, c, parts.column.address)
}

// The sentence on the final sum.
pub(crate) fn put_sum_sentence(out: &mut [u8], at: usize, table: Table, parts: Parts) -> usize
    ensures { (out.new, result) ≡ typed (sum_sentence table parts) (out.old, at) }
{
    let a = put_text(out, at, b"The final sum ");
    let b = put_integer(out, a, parts.numerator);
    let c = put_text(
        out,
        b,
        b" is outside -32768..32767. Its fields stand in words ",
    );
    let d = put_address(out, c, parts.average.address);
    let e = put_shared_words(is_spread(table), out, d, parts);
    let f = put_text(out, e, b" and ");
    let g = put_address(out, f, parts.remainder.address);
    let h = put_text(out, g, b"; a sum ");
    let i = put_excess(out, h, parts.numerator);
    put_text(out, i, b" would fit.\n")
}

// The numerator, the power of two that it is over, and the entry.
pub(crate) fn put_entry_lines(out: &mut [u8], at: usize, e: Explanation) -> usize
    ensures { (out.new, result) ≡ typed (entry_lines e) (out.old, at) }
{
    let a = put_text(out, at, b"numerator ");
    let b = put_integer(out, a, e.parts.numerator);
    let c = put_text(out, b, b"\nexponent ");
    let d = put_decimal(out, c, e.exponent as u64);
    let f = put_text(out, d, b"\nentry ");
    let g = put_entry(out, f, e.entry);
    put_byte(out, g, b'\n')
}
