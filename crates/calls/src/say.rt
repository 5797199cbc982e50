// A call's line: what was called, then the answer word in its three parts (the refusal's number, the byte beside it, and place or value in
// twelve hexadecimal digits).
use script::Row;
use std::io::Result;

pub fn answer(rt: &impl Print, row: Row<'_>, word: u64) -> Result<()> {
    rt.write_all(row.text())?;
    println!(rt;
        ": {} {} {:012x}",
        word % 256,
        word / 256 % 256,
        word / 65536
    )
}

// A number that changes with each byte and with its place.
fn digest(bytes: &[u8]) -> u64 {
    bytes
        .iter()
        .fold(0, |sum: u64, byte| sum % 0x100000000 * 257 + *byte as u64)
}

// What lent memory holds, as a digest.
pub fn holds(rt: &impl Print, name: &str, bytes: &[u8]) -> Result<()> {
    println!(rt; "  {name} {:012x}", digest(bytes))
}
