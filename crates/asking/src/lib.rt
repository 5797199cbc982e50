// What a person types to ask for a number: a table by its name or its number, and a pixel by its number or by its row and column, as `5,0`.

#![tactic(auto)]

use script::split_once;

// A number in decimal: one digit or more, and nothing else. One that is too large for a u32, which parse would
// refuse, is the largest, which no table and no pixel has.
fn number(text: &[u8]) -> Option<u32> {
    if text.is_empty() {
        return None;
    }
    text.iter().try_fold(0u32, |value, b| {
        let digit = char::from(*b).to_digit(10)?;
        Some(value.saturating_mul(10).saturating_add(digit))
    })
}

// A table: offset, alpha, k_ta (or kta), or its number.
pub fn table(text: &[u8]) -> Option<u32> {
    match text {
        b"offset" => Some(0),
        b"alpha" => Some(1),
        b"k_ta" | b"kta" => Some(2),
        _ => number(text),
    }
}

// The pixel in a row and a column: 768, which is none, past the last of either.
fn pixel_at(row: u32, column: u32) -> u32 {
    if row < 24 && column < 32 {
        32 * row + column
    } else {
        768
    }
}

// A pixel: its number, or its row and its column with a comma between.
pub fn pixel(text: &[u8]) -> Option<u32> {
    match split_once(b',', text) {
        Some((row, column)) => Some(pixel_at(number(row)?, number(column)?)),
        None => number(text),
    }
}
