// Questions to a record's bytes, and to too few of them; questions about the camera.
use crate::lent::Lent;
use mofuleka::{
    mofuleka_alpha_cp, mofuleka_compensation_pixel, mofuleka_interleave_correction_cp,
    mofuleka_interleave_correction_pixel, mofuleka_k_v_pixel, mofuleka_offset_reference_cp,
    mofuleka_pixel_in_subpage, mofuleka_pixel_range, mofuleka_pixel_range_count,
    mofuleka_resolution_correction,
};
use script::Row;

// The answer to a question about the camera, with its numbers in the order of the call.
fn camera_answer(row: Row<'_>) -> u64 {
    let a = row.number(1) as u32;
    let b = row.number(2) as u32;
    let n = row.number(3) as usize;
    match row.letter(0) {
        b'm' => mofuleka_pixel_in_subpage(a, b, n),
        b'n' => mofuleka_pixel_range_count(a),
        b'r' => mofuleka_pixel_range(a, b, n),
        b'x' => mofuleka_compensation_pixel(a),
        _ => mofuleka_resolution_correction(a, b),
    }
}

// The answer to a question to the record, of which a byte is missing where the first number is not 0, or about the camera.
pub fn record_answer(lent: &Lent, row: Row<'_>) -> u64 {
    let bytes = lent.record(row.number(1) != 0);
    let a = row.number(2) as u32;
    let b = row.number(3) as u32;
    match row.letter(0) {
        b'k' => mofuleka_k_v_pixel(bytes, b as usize),
        b'c' => mofuleka_interleave_correction_pixel(bytes, a, b as usize),
        b'p' => mofuleka_interleave_correction_cp(bytes, a, b),
        b'a' => mofuleka_alpha_cp(bytes, a),
        b'o' => mofuleka_offset_reference_cp(bytes, a),
        _ => camera_answer(row),
    }
}
