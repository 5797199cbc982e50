// An explanation's bytes.
ghost use Rattle.std.specs.Prelude.{◌≡◌, ◌+◌, ◌≤◌, ◌<◌, length};
ghost use Rattle.std.proofs.lemmas.List.Edits.{sets};
ghost use Rattle.layout.specs.Sizes.{part_size, stage_size, parts_size, heading_size, explanation_size};
ghost use Rattle.layout.specs.ExplanationBytes.{part_bytes, stage_bytes, parts_bytes, failure_number, entry_bytes, heading_bytes, explanation_bytes};

use crate::numbers::Number;
use explanation::{Entry, Explanation, Failure, Part, Parts};
use refusal::{code_of, table_number};

// A field, from place at on.
fn put_part(out: &mut [u8], at: usize, x: Part)
    requires { at + part_size ≤ length out.old }
    ensures out_after { out.new ≡ sets out.old at (part_bytes x) }
    ensures x_len { length (part_bytes x) ≡ part_size }
{
    x.address.put(out, at);
    x.high.put(out, at + 2);
    x.low.put(out, at + 3);
    x.raw.put(out, at + 4);
    x.value.put(out, at + 6);
    x.scale.put(out, at + 8);
    x.term.put(out, at + 9);
}

// A field and the running sum after it, from place at on.
fn put_stage(out: &mut [u8], at: usize, x: Part, sum: i32)
    requires { at + stage_size ≤ length out.old }
    ensures out_after { out.new ≡ sets out.old at (stage_bytes x sum) }
    ensures sum_len { length (stage_bytes x sum) ≡ stage_size }
{
    put_part(out, at, x);
    sum.put(out, at + 13);
}

// The fields with their running sums, behind the heading.
fn put_parts(out: &mut [u8], x: Parts)
    requires { heading_size + parts_size ≤ length out.old }
    ensures out_after { out.new ≡ sets out.old heading_size (parts_bytes x) }
    ensures x_len { length (parts_bytes x) ≡ parts_size }
{
    put_part(out, 5, x.average);
    put_stage(out, 18, x.row, x.after_row);
    put_stage(out, 35, x.column, x.after_column);
    put_stage(out, 52, x.remainder, x.numerator);
}

// A failure's number, by its name: the C interface's numbers stand whatever the enum's order is.
// A number, since the C interface hands out one.
fn failure_number(failure: Option<Failure>) -> u8
    ensures { result ≡ failure_number failure }
{
    match failure {
        None => 0,
        Some(Failure::Row) => 1,
        Some(Failure::Column) => 2,
        Some(Failure::Remainder) => 3,
        Some(Failure::Sum) => 4,
    }
}

// An entry, from place at on.
fn put_entry(out: &mut [u8], at: usize, entry: Option<Entry>)
    requires { at + 4 ≤ length out.old }
    ensures out_after { out.new ≡ sets out.old at (entry_bytes entry) }
    ensures len { length (entry_bytes entry) ≡ 4 }
{
    match entry {
        None => 0i32.put(out, at),
        Some(Entry::Whole(z)) => i32::from(z).put(out, at),
        Some(Entry::Fraction(x)) => x.put(out, at),
    }
}

// What is explained, at the front of out.
fn put_heading(e: Explanation, out: &mut [u8])
    requires { (heading_size ≤ length out.old) × (e.pixel < 65536) }
    ensures out_after { out.new ≡ sets out.old 0 (heading_bytes e) }
    ensures e_len { length (heading_bytes e) ≡ heading_size }
{
    code_of(e.found).number.put(out, 0);
    table_number(e.table).put(out, 1);
    (e.pixel as u16).put(out, 2);
    failure_number(e.failure).put(out, 4);
}

// An explanation's bytes at the front of out.
pub fn put_explanation(e: Explanation, out: &mut [u8])
    requires { (explanation_size ≤ length out.old) × (e.pixel < 65536) }
    ensures out_after { out.new ≡ sets out.old 0 (explanation_bytes e) }
    ensures e_len { length (explanation_bytes e) ≡ explanation_size }
{
    put_heading(e, out);
    put_parts(out, e.parts);
    e.exponent.put(out, 69);
    put_entry(out, 70, e.entry);
}
