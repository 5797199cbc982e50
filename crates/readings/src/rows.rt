// The rows of the table: what each sets up or asks.
use crate::camera_questions::of_camera;
use crate::gathering_questions::of_gathering;
use crate::held::Held;
use crate::image_questions::of_image;
use crate::line::{Line, listing};
use crate::question::Question;
use crate::record_questions::{of_pixels, of_record};
use crate::report::Report;
use crate::table_questions::of_tables;
use script::{Row, cut};
use std::{fmt, io};

// Puts the answer to a question into a line. Each family of questions knows its own letters.
fn answer(line: &mut Line, held: &Held, question: Question) -> fmt::Result {
    of_tables(line, held, question)?;
    of_record(line, &held.record, question)?;
    of_pixels(line, &held.record, question)?;
    of_camera(line, question)?;
    of_gathering(line, &held.gathering, question)?;
    of_image(line, held, question)
}

// The answers to all questions of a row.
fn answers(held: &Held, row: Row<'_>) -> Line {
    let mut line = Line::new();
    for pair in 0..row.pairs() {
        let place = 2 * pair + 1;
        let question = Question {
            kind: row.letter(place),
            n: row.number(place + 1),
        };
        let _ = answer(&mut line, held, question);
    }
    line
}

// A reading: questions, what they are, and what is expected.
fn read(rt: &impl Print, held: &Held, report: &mut Report, row: Row<'_>) -> io::Result<()> {
    let (what, expected) = cut(b'|', row.text());
    let got = answers(held, row.places());
    report.reading(rt, what, expected, &got)
}

// Prints the listing of the image below a text.
fn list(rt: &impl Print, held: &Held, row: Row<'_>) -> io::Result<()> {
    rt.write_all(row.text())?;
    println!(rt)?;
    rt.write_all(listing(held.image(), &mut [0; 1024]))
}

// One row.
fn obey(rt: &impl Print, held: &mut Held, report: &mut Report, row: Row<'_>) -> io::Result<()> {
    match row.letter(0) {
        b'r' => read(rt, held, report, row),
        b'l' => list(rt, held, row),
        _ => {
            held.prepare(row);
            Ok(())
        }
    }
}

// Every row of the table.
pub fn all_rows(rt: &impl Print, table: &[u8]) -> io::Result<Report> {
    let mut held = Held::of_image([0; 2496], 1664);
    let mut report = Report::default();
    for line in table.split(|b| *b == b'\n') {
        obey(rt, &mut held, &mut report, Row(line))?;
    }
    Ok(report)
}
