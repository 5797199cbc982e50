// Holds the library to a fixed sample of the original crate's answers, which stands on standard input. Where a sum of alpha wraps in the crate, the sample has the
// exact number in its place. alpha_ptat is the crate's throughout, in whole steps, and is raised here to the datasheet's quarter steps, which the library has
// (docs/DIFFERENCES.md, section 4). rust/compare/src/sample.rs has the sample's form, and rust/compare/record-sample makes it.

#![tactic(auto)]

use input::fill;
use mofuleka::mofuleka_from_data;
use std::io;
use std::io::Read;

// Where alpha_ptat's second byte stands in a record, and its nibble, at the top of the word at 0x2410, in an image.
const STEPS_BYTE: usize = 18;

const NIBBLE_BYTE: usize = 32;

// What became of one entry of the sample.
#[derive(Clone, Copy)]
enum Outcome {
    Accepted,
    // Accepted as well, with an alpha_ptat that is some quarters above the crate's.
    InQuarters,
    Refused,
    Different,
}

// Why there is no entry more.
#[derive(Clone, Copy)]
enum Stop {
    End,
    // The sample breaks off in the middle of an entry.
    Broken,
}

// The next N bytes of the sample, where it has as many.
fn next<R: Read, const N: usize>(reader: &mut R) -> Option<[u8; N]> {
    let mut bytes = [0; N];
    match fill(reader, &mut bytes) {
        Ok(count) if count == N => Some(bytes),
        _ => None,
    }
}

// The next image of the sample, in a larger room: zeros but for so many words, each behind its number.
fn next_image<R: Read>(reader: &mut R, count: u16) -> Option<[u8; 4096]> {
    let mut image = [0; 4096];
    for _ in 0..count {
        let [n, m, high, low]: [u8; 4] = next(reader)?;
        let word = u16::from_be_bytes([n, m]) as usize;
        if word < 832 {
            image[2 * word] = high;
            image[2 * word + 1] = low;
        }
    }
    Some(image)
}

// Whether the next bytes of the sample are those that the library wrote.
fn as_recorded<R: Read, const N: usize>(reader: &mut R, got: &[u8; N]) -> bool {
    next(reader).is_some_and(|recorded: [u8; N]| recorded == *got)
}

// Whether the record is the next one of the sample, with its alpha_ptat raised by so many quarters. From 8 to 12 a quarter is 4 in the second byte of an f32.
fn record_as_recorded<R: Read>(reader: &mut R, got: &[u8; 122], quarters: u8) -> bool {
    next(reader).is_some_and(|mut recorded: [u8; 122]| {
        recorded[STEPS_BYTE] = recorded[STEPS_BYTE].wrapping_add(quarters % 4 * 4);
        recorded == *got
    })
}

// Decodes an image and compares: the answer word, and where the sample has an accepted image the record and the tables.
fn decoded_as<R: Read>(reader: &mut R, image: &[u8; 4096], length: u16, expected: u64) -> Outcome {
    let mut offset = [0u8; 1536];
    let mut alpha = [0u8; 3072];
    let mut k_ta = [0u8; 3072];
    let mut record = [0u8; 122];
    let n = (length as usize).min(4096);
    let answer = mofuleka_from_data(&image[..n], &mut offset, &mut alpha, &mut k_ta, &mut record);
    if expected != 0 {
        return if answer == expected {
            Outcome::Refused
        } else {
            Outcome::Different
        };
    }
    let quarters = image[NIBBLE_BYTE] / 16 % 4;
    let same_record = record_as_recorded(reader, &record, quarters);
    let same_offset = as_recorded(reader, &offset);
    let same_alpha = as_recorded(reader, &alpha);
    let same_k_ta = as_recorded(reader, &k_ta);
    if answer != 0 || !same_record || !same_offset || !same_alpha || !same_k_ta {
        Outcome::Different
    } else if quarters == 0 {
        Outcome::Accepted
    } else {
        Outcome::InQuarters
    }
}

// Replays one entry: its words, then its image's length and the answer's number, table and place.
fn replay_entry<R: Read>(reader: &mut R) -> Result<Outcome, Stop> {
    let head = next(reader).ok_or(Stop::End)?;
    let image = next_image(reader, u16::from_be_bytes(head)).ok_or(Stop::Broken)?;
    let [n, m, number, table, high, low]: [u8; 6] = next(reader).ok_or(Stop::Broken)?;
    let place = u16::from_be_bytes([high, low]) as u64;
    let expected = number as u64 + 256 * table as u64 + 65536 * place;
    let length = u16::from_be_bytes([n, m]);
    Ok(decoded_as(reader, &image, length, expected))
}

// How many entries went which way so far.
#[derive(Clone, Copy, Default)]
struct Tally {
    accepted: u64,
    in_quarters: u64,
    refused: u64,
    different: u64,
    compared: u64,
}

impl Tally {
    // One entry more.
    fn add(&mut self, outcome: Outcome) {
        let count = match outcome {
            Outcome::Accepted => &mut self.accepted,
            Outcome::InQuarters => &mut self.in_quarters,
            Outcome::Refused => &mut self.refused,
            Outcome::Different => &mut self.different,
        };
        *count = count.saturating_add(1);
        self.compared = self.compared.saturating_add(1);
    }

    fn print(&self, rt: &impl Print) -> io::Result<()> {
        println!(rt; "{} accepted with the recorded numbers", self.accepted)?;
        println!(rt;
            "{} accepted with these, and alpha_ptat in quarter steps, where the crate has whole ones",
            self.in_quarters
        )?;
        println!(rt; "{} refused as the scope has them", self.refused)?;
        println!(rt; "{} compared, {} different", self.compared, self.different)
    }
}

// The tally of a sample, of which no more than 10,000 entries are read. Where it breaks off, that counts as a difference.
fn tally_of<R: Read>(reader: &mut R) -> Tally {
    let mut tally = Tally::default();
    for _ in 0..10000 {
        match replay_entry(reader) {
            Ok(outcome) => tally.add(outcome),
            Err(Stop::End) => break,
            Err(Stop::Broken) => {
                tally.different = tally.different.saturating_add(1);
                break;
            }
        }
    }
    tally
}

fn main(rt: HostRuntime) -> io::Result<()> {
    tally_of(&mut rt.stdin()).print(&rt)
}
