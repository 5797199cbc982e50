// Questions about the camera: masks, ranges, resolution and addresses.
use crate::line::Line;
use crate::question::Question;
use camera::{
    EepromAddress, PixelAddressRange, RamAddress, compensation_pixel, pixel_in_subpage,
    pixel_range, pixel_range_count, resolution_correction,
};
use refusal::Refusal;
use std::fmt;

// The constants of EepromAddress, all of them, in the order of the original crate's address.rs.
const EEPROM: [EepromAddress; 27] = [
    EepromAddress::Base,
    EepromAddress::OffsetCompensation,
    EepromAddress::PixelOffsetAverage,
    EepromAddress::OffsetCompensationRowStart,
    EepromAddress::OffsetCompensationColumnStart,
    EepromAddress::SensitivityScale,
    EepromAddress::PixelSensitivityAverage,
    EepromAddress::PixelSensitivityCompensationRowStart,
    EepromAddress::PixelSensitivityCompensationColumnStart,
    EepromAddress::Gain,
    EepromAddress::Ptat25,
    EepromAddress::PtatConstants,
    EepromAddress::VddConstants,
    EepromAddress::AverageVoltageConstants,
    EepromAddress::InterlacedModeCompensation,
    EepromAddress::AmbientTemperatureAverageConstantsEvenColumns,
    EepromAddress::AmbientTemperatureAverageConstantsOddColumns,
    EepromAddress::VAndTaScale,
    EepromAddress::CompensationPixelSensitivity,
    EepromAddress::CompensationPixelOffset,
    EepromAddress::CompensationPixelConstants,
    EepromAddress::AmbientTemperatureSensitivityConstant,
    EepromAddress::ObjectTemperatureSensitivityRangeConstants1,
    EepromAddress::ObjectTemperatureSensitivityRangeConstants2,
    EepromAddress::CornerTemperatures,
    EepromAddress::PixelCalibrationStart,
    EepromAddress::End,
];

// The constants of RamAddress.
const RAM: [RamAddress; 8] = [
    RamAddress::Base,
    RamAddress::AmbientTemperatureVoltageBe,
    RamAddress::CompensationPixelZero,
    RamAddress::Gain,
    RamAddress::AmbientTemperatureVoltage,
    RamAddress::CompensationPixelOne,
    RamAddress::PixelSupplyVoltage,
    RamAddress::End,
];

// Whether the question's subpage holds a pixel.
pub fn is_in_subpage(question: Question, pixel: usize) -> Result<bool, Refusal> {
    pixel_in_subpage(question.pattern(), question.subpage(), pixel)
}

fn range_of(question: Question) -> Result<PixelAddressRange, Refusal> {
    pixel_range(question.pattern(), question.subpage(), question.rest())
}

// The correction for two resolutions, of two digits each.
fn resolution(n: u16) -> Result<f32, Refusal> {
    resolution_correction((n / 256) as u8, (n % 256) as u8)
}

// Refusal and answer.
fn put_mask(line: &mut Line, question: Question) -> fmt::Result {
    let answer = is_in_subpage(question, question.rest());
    line.verdict(answer)?;
    line.value(answer.unwrap_or(false) as u8)
}

// Refusal, address, offset and length of a range, which are 0 beside a refusal.
fn put_range(line: &mut Line, question: Question) -> fmt::Result {
    let answer = range_of(question);
    line.verdict(answer)?;
    let (address, offset, length) = match answer {
        Ok(range) => (range.start_address.0, range.buffer_offset.0, range.length),
        Err(_) => (0, 0, 0),
    };
    line.value(address)?;
    line.value(offset)?;
    line.value(length)
}

// Refusal and factor.
fn put_resolution(line: &mut Line, n: u16) -> fmt::Result {
    let answer = resolution(n);
    line.verdict(answer)?;
    line.float(answer.unwrap_or(0.0))
}

pub fn of_camera(line: &mut Line, question: Question) -> fmt::Result {
    let n = question.n;
    match question.kind {
        b'h' => put_mask(line, question),
        b'r' => put_range(line, question),
        b'R' => line.value(pixel_range_count(question.pattern())),
        b'x' => line.value(compensation_pixel(question.subpage()).0),
        b'q' => put_resolution(line, n),
        b'e' => line.address(EEPROM[(n % 27) as usize] as u16),
        b'm' => line.address(RAM[(n % 8) as usize] as u16),
        _ => Ok(()),
    }
}
