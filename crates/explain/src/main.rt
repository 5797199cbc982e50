// explain TABLE PIXEL: reads an image on standard input and prints where a number of it comes from, or why the image is refused; or says on standard error why it
// can't.

#![tactic(auto)]

ghost use Rattle.std.specs.Prelude.{◌≡◌, ◌<◌, MatchResult, length, take, drop};
ghost use Rattle.io.specs.Counts.{IsPrefixLen};
ghost use Rattle.explanation.specs.Explanation.{explanation_of};
ghost use Rattle.wording.specs.Wording.{wording};
ghost use Rattle.page.specs.Page.{image_in};

use asking::{pixel, table};
use input::{Broken, fill};
use page::image_length;
use std::env::{Env, FillError};
use std::io::Read;
use std::process::ExitCode;
use wording::explain_image;

// The explanation of a pixel of the image that an input stands for.
#[tactic(auto, unfolding(page::specs::Page::image_in))]
fn explain_input(input: &[u8], table: u32, p: usize, out: &mut [u8; 2048]) -> usize
    ensures prefix_len { IsPrefixLen result out.new }
    ensures out_after { take result out.new ≡ wording (explanation_of (image_in input.now) table p) }
    ensures out_unchanged { drop result out.new ≡ drop result out.old }
{
    let count = image_length(input.len());
    explain_image(&input[..count], table, p, out)
}

// Reads an input into a buffer with room for more than a page: what fills it is longer than a page, and the rest of it need not be read.
// As in caldump: that the buffer is longer than a page is each program's own promise (caldump/page_fills_buffer).
fn read_input<R: Read>(reader: &mut R, buffer: &mut [u8]) -> Result<usize, Broken>
    requires { 2048 < length buffer.old }
    ensures { MatchResult result (λ count. IsPrefixLen count buffer.new) (λ broken. IsPrefixLen broken.count buffer.new) }
{
    fill(reader, buffer)
}

// What an argument asks for, as its bytes are read. None of more than 64 bytes asks for anything.
fn asked<F: FnOnce(&[u8]) -> Option<u32>>(rt: &impl Env, i: usize, read: F) -> Option<u32>
    requires { F.IsAlwaysCallable read }
{
    let mut text = [0; 64];
    let count = rt.arg(i, &mut text).ok()?;
    read(&text[..count])
}

// Whether there are no arguments behind these two.
fn asks_no_more(rt: &impl Env) -> bool {
    let mut text = [0; 64];
    matches!(rt.arg(3, &mut text), Err(FillError::NotPresent))
}

// Says how the program is called.
fn say_usage(rt: &impl Eprint) {
    let _ = rt.eprint(
        "usage: explain TABLE PIXEL < IMAGE\nTABLE is offset, alpha or k_ta, or 0, 1 or 2; PIXEL is 0 to 767, or ROW,COLUMN as in 5,0\n",
    );
}

// Reads the image and prints.
fn answer(rt: &HostRuntime, table: u32, p: usize) -> ExitCode {
    let mut buffer = [0; 2049];
    let Ok(count) = read_input(&mut rt.stdin(), &mut buffer) else {
        let _ = eprintln!(rt; "explain: standard input can't be read");
        return ExitCode::FAILURE;
    };
    let mut text = [0; 2048];
    let length = explain_input(&buffer[..count], table, p, &mut text);
    if rt.write_all(&text[..length]).is_err() {
        let _ = eprintln!(rt; "explain: standard output can't be written");
        return ExitCode::FAILURE;
    }
    ExitCode::SUCCESS
}

// Exit status 2 where the arguments are no question.
fn main(rt: HostRuntime) -> ExitCode {
    match (asked(&rt, 1, table), asked(&rt, 2, pixel)) {
        (Some(table), Some(pixel)) if asks_no_more(&rt) => answer(&rt, table, pixel as usize),
        _ => {
            say_usage(&rt);
            ExitCode::from(2)
        }
    }
}
