// Lines about a gathering.
use gathering::Gathering;
use refusal::code_of;
use std::io;

// What a gathering answers to the questions about all words: how many are missing, after a name, how many in conflict, and why it can't be decoded.
pub fn print_state(rt: &impl Print, name: &str, g: &Gathering) -> io::Result<()> {
    let status = g.status();
    let fault = code_of(g.fault());
    println!(rt; "{name} {}", status.missing)?;
    println!(rt; "  in conflict {}", status.in_conflict)?;
    println!(rt; "  fault {}", fault.number)?;
    println!(rt; "  at word {}", fault.place)
}
