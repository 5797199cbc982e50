// Decoding an image or a gathering into four slices. Every slice is filled with A5 before the call, so that a refused call that writes shows: its
// slices' digests are those of every other refused call.
use crate::lent::{Lent, room};
use crate::say::{answer, holds};
use mofuleka::{mofuleka_from_data, mofuleka_gathering_from_data};
use script::Row;
use std::io::Result;

// Decodes an image where the source is 0, and else a gathering, with room for all, or with slice 1, 2, 3 or 4 a byte short. Then prints the answer and what the slices hold.
pub fn decoded(rt: &impl Print, lent: &Lent, row: Row<'_>) -> Result<()> {
    let source = row.number(1);
    let short = row.number(2);
    let mut offsets = [0xA5u8; 1536];
    let mut alphas = [0xA5u8; 3072];
    let mut k_tas = [0xA5u8; 3072];
    let mut fields = [0xA5u8; 122];
    let offset = &mut offsets[..room(1536, short == 1)];
    let alpha = &mut alphas[..room(3072, short == 2)];
    let k_ta = &mut k_tas[..room(3072, short == 3)];
    let record = &mut fields[..room(122, short == 4)];
    let word = if source == 0 {
        mofuleka_from_data(lent.image(), offset, alpha, k_ta, record)
    } else {
        mofuleka_gathering_from_data(lent.gathering(), offset, alpha, k_ta, record)
    };
    answer(rt, row, word)?;
    holds(rt, "offset", offset)?;
    holds(rt, "alpha ", alpha)?;
    holds(rt, "k_ta  ", k_ta)?;
    holds(rt, "record", record)
}
