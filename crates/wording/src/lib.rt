// An explanation in words, laid into a lent buffer byte for byte. What has no room in the buffer is dropped.

#![tactic(auto)]

mod lines;
mod sentences;
mod words;

ghost use Rattle.std.specs.Prelude.{◌≡◌, take, drop};
ghost use Rattle.io.specs.Counts.{IsPrefixLen};
ghost use Rattle.explanation.specs.Explanation.{explanation_of};
ghost use Rattle.listing.specs.Inner.Typing.{typed};
ghost use Rattle.wording.specs.Wording as wording;

use explanation::{Explanation, Failure, explain};
use lines::{put_opening, put_part_lines};
use listing::put_refused;
use refusal::{Refusal, code_of};
use sentences::{put_entry_lines, put_sum_sentence, put_term_sentence};

// What comes last: the entry, or the sentence on what failed.
fn put_ending(out: &mut [u8], at: usize, e: Explanation) -> usize
    ensures { (out.new, result) ≡ typed (wording.ending e.failure e) (out.old, at) }
{
    let table = e.table;
    let parts = e.parts;
    match e.failure {
        None => put_entry_lines(out, at, e),
        Some(Failure::Row) => put_term_sentence(out, at, b"row", parts.row),
        Some(Failure::Column) => put_term_sentence(out, at, b"column", parts.column),
        Some(Failure::Remainder) => put_term_sentence(out, at, b"remainder", parts.remainder),
        Some(Failure::Sum) => put_sum_sentence(out, at, table, parts),
    }
}

// An answer from the buffer's start on, and how many bytes of it there are.
#[tactic(auto, unfolding(crate::specs::Wording::wording))]
fn put_explanation(answer: Result<Explanation, Refusal>, out: &mut [u8]) -> usize
    ensures { (out.new, result) ≡ typed (wording.wording answer) (out.old, 0) }
{
    match answer {
        Ok(e) => {
            let a = put_opening(out, 0, e);
            let b = put_part_lines(out, a, e.failure, e.table, e.parts);
            put_ending(out, b, e)
        }
        Err(refusal) => put_refused(out, 0, code_of(Err(refusal))),
    }
}

// The explanation of a pixel of an image, whole: it needs no more than 2,048 bytes, whatever the image.
pub fn explain_image(image: &[u8], table: u32, p: usize, out: &mut [u8; 2048]) -> usize
    ensures prefix_len { IsPrefixLen result out.new }
    ensures out_after { take result out.new ≡ wording.wording (explanation_of image.now table p) }
    ensures out_unchanged { drop result out.new ≡ drop result out.old }
{
    put_explanation(explain(image, table, p), out)
}
