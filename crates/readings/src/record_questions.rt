// Questions to the record: its fields, and what it has for a pixel or a compensation pixel.
use crate::line::Line;
use crate::question::Question;
use record::{Record, interleave_correction_cp, interleave_correction_pixel, k_v_pixel};
use refusal::Refusal;
use std::fmt;

// The record's i16 numbers, corner_temperatures last.
fn whole_at(r: &Record, n: u16) -> i16 {
    match n {
        0 => r.k_v_dd,
        1 => r.v_dd_25,
        2 => r.offset_reference_cp[0],
        3 => r.offset_reference_cp[1],
        _ => r.corner_temperatures[(n % 4) as usize],
    }
}

// Its floats that stand alone, and alpha_cp.
fn single_at(r: &Record, n: u16) -> f32 {
    match n {
        0 => r.k_v_ptat,
        1 => r.k_t_ptat,
        2 => r.v_ptat_25,
        3 => r.alpha_ptat,
        4 => r.gain,
        5 => r.k_s_ta,
        6 => r.k_v_cp,
        7 => r.k_ta_cp,
        8 => r.alpha_cp[0],
        9 => r.alpha_cp[1],
        _ => r.interleave_correction_cp,
    }
}

// Its floats: those of its longer arrays have another third digit.
fn float_at(r: &Record, n: u16) -> f32 {
    match n / 16 {
        1 => r.k_s_to[(n % 4) as usize],
        2 => r.k_v_pattern[(n % 4) as usize],
        3 => r.interleave_correction_pixels[(n % 16 % 6) as usize],
        _ => single_at(r, n),
    }
}

// The fields.
pub fn of_record(line: &mut Line, r: &Record, question: Question) -> fmt::Result {
    let n = question.n;
    match question.kind {
        b'i' => line.value(whole_at(r, n)),
        b'u' => line.value(r.resolution),
        b'f' => line.float(float_at(r, n)),
        b'g' => line.optional(r.temperature_gradient_coefficient),
        _ => Ok(()),
    }
}

// A pixel's correction.
fn correction(r: &Record, question: Question) -> Result<Option<f32>, Refusal> {
    interleave_correction_pixel(*r, question.pattern(), question.rest())
}

// The compensation pixel's correction.
fn correction_cp(r: &Record, question: Question) -> Option<f32> {
    interleave_correction_cp(*r, question.pattern(), question.subpage())
}

// What the record has for a pixel.
pub fn of_pixels(line: &mut Line, r: &Record, question: Question) -> fmt::Result {
    let n = question.n as usize;
    match question.kind {
        b'v' => line.float(k_v_pixel(*r, n).unwrap_or(0.0)),
        b'V' => line.verdict(k_v_pixel(*r, n)),
        b'c' => line.optional(correction(r, question).unwrap_or(None)),
        b'C' => line.verdict(correction(r, question)),
        b'p' => line.optional(correction_cp(r, question)),
        _ => Ok(()),
    }
}
