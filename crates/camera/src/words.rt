// The numbers of the image's words that more than one room reads: word n is the one at address Base + n.
use crate::address::EepromAddress;

pub const BASE: usize = EepromAddress::Base as usize;

// The scales of the offset and of the sensitivity. From there on both tables have one layout: average, rows, columns.
pub const OFFSET_COMPENSATION: usize = EepromAddress::OffsetCompensation as usize - BASE;

pub const SENSITIVITY_SCALE: usize = EepromAddress::SensitivityScale as usize - BASE;

pub const AVERAGE: usize = EepromAddress::PixelOffsetAverage as usize
    - EepromAddress::OffsetCompensation as usize;

pub const ROWS: usize = EepromAddress::OffsetCompensationRowStart as usize
    - EepromAddress::OffsetCompensation as usize;

pub const COLUMNS: usize = EepromAddress::OffsetCompensationColumnStart as usize
    - EepromAddress::OffsetCompensation as usize;

// The Kta averages, in two words.
pub const K_TA_AVERAGES: usize =
    EepromAddress::AmbientTemperatureAverageConstantsEvenColumns as usize - BASE;

pub const V_AND_TA_SCALE: usize = EepromAddress::VAndTaScale as usize - BASE;

// The pixels' own words, in order.
pub const PIXEL_CALIBRATION: usize = EepromAddress::PixelCalibrationStart as usize - BASE;
