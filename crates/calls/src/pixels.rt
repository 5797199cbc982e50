// One pixel of an image or of a gathering. The twelve bytes of which a slice is lent are A5 before the call, so that a refused call that writes shows.
use crate::lent::Lent;
use crate::say::answer;
use mofuleka::{mofuleka_gathering_pixel, mofuleka_pixel};
use script::Row;
use std::io::Result;
use util::word;

// Asks an image where the source is 0, and else a gathering. Then prints the answer and what the slice holds: offset, alpha, Kta and two bytes more.
pub fn single(rt: &impl Print, lent: &Lent, row: Row<'_>) -> Result<()> {
    let mut bytes = [0xA5u8; 12];
    let n = (row.number(3) as usize).min(12);
    let out = &mut bytes[..n];
    let source = row.number(1);
    let pixel = row.number(2) as usize;
    let found = if source == 0 {
        mofuleka_pixel(lent.image(), pixel, out)
    } else {
        mofuleka_gathering_pixel(lent.gathering(), pixel, out)
    };
    answer(rt, row, found)?;
    let [a, b, c, d, e, f] = [0, 1, 2, 3, 4, 5].map(|i| word(&bytes, i));
    println!(rt; "  pixel {a:04x} {b:04x}{c:04x} {d:04x}{e:04x} {f:04x}")
}
