// Where each field of a record starts in its bytes, as `record_in` (specs/RecordBytes.antt) has it.
pub(crate) const K_V_DD: usize = 0;

pub(crate) const V_DD_25: usize = 2;

pub(crate) const RESOLUTION: usize = 4;

pub(crate) const K_V_PTAT: usize = 5;

pub(crate) const K_T_PTAT: usize = 9;

pub(crate) const V_PTAT_25: usize = 13;

pub(crate) const ALPHA_PTAT: usize = 17;

pub(crate) const GAIN: usize = 21;

pub(crate) const K_S_TA: usize = 25;

pub(crate) const CORNER_TEMPERATURES: usize = 29;

pub(crate) const K_S_TO: usize = 37;

pub(crate) const ALPHA_CP: usize = 53;

pub(crate) const OFFSET_REFERENCE_CP: usize = 61;

pub(crate) const K_V_PATTERN: usize = 65;

pub(crate) const K_V_CP: usize = 81;

pub(crate) const K_TA_CP: usize = 85;

pub(crate) const TEMPERATURE_GRADIENT_PRESENT: usize = 89;

pub(crate) const TEMPERATURE_GRADIENT_COEFFICIENT: usize = 90;

pub(crate) const INTERLEAVE_CORRECTION_PIXELS: usize = 94;

pub(crate) const INTERLEAVE_CORRECTION_CP: usize = 118;
