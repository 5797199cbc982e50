// States that no blocks give. A mark that is not 0, 1 or 2 counts as in conflict, and a value beside a word that is not held counts as 0.
// Printed is what each question answers, and what an accepted block and a merge write in their place.
use crate::text::print_state;
use gathering::{Gathering, mark_number};
use refusal::code_of;
use std::io;

// The words that are out of the ordinary, and one that is not.
const WORDS: [usize; 5] = [5, 9, 10, 11, 12];

// Each word has the value 7 and is held.
fn held_state() -> Gathering {
    Gathering {
        values: [7; 832],
        marks: [1; 832],
    }
}

// The same, but for words 5 and 9, whose marks are unknown, word 10, which is in conflict, and word 12, which is missing.
fn unknown_state() -> Gathering {
    let mut g = held_state();
    g.marks[5] = 3;
    g.marks[9] = 255;
    g.marks[10] = 2;
    g.marks[12] = 0;
    g
}

// What a state answers to every question.
fn print_answers(rt: &impl Print, g: &Gathering) -> io::Result<()> {
    print_state(rt, "  missing", g)?;
    for w in WORDS {
        if let Ok(word) = g.word(w) {
            println!(rt;
                "  word {w}: mark {}, value {}",
                mark_number(word.mark),
                word.value
            )?;
        }
    }
    Ok(())
}

// What a state stores.
fn print_stored(rt: &impl Print, g: &Gathering) -> io::Result<()> {
    for w in WORDS {
        println!(rt;
            "  stores of word {w}: mark {}, value {}",
            g.marks[w], g.values[w]
        )?;
    }
    Ok(())
}

// What a state answers to a block, and what it then stores.
fn print_after_block(rt: &impl Print, what: &str, g: Gathering, block: &[u8]) -> io::Result<()> {
    let answer = g.accept(block);
    println!(rt; "it takes a block {what}")?;
    println!(rt; "  refusal {}", code_of(answer.verdict).number)?;
    print_stored(rt, &answer.gathering)
}

// What a state stores after it has merged another.
fn print_after_merge(
    rt: &impl Print,
    what: &str,
    g: Gathering,
    other: &Gathering,
) -> io::Result<()> {
    println!(rt; "{what}")?;
    print_stored(rt, &g.merge(*other))
}

pub fn print_unknown_marks(rt: &impl Print) -> io::Result<()> {
    let g = unknown_state();
    println!(rt; "a state with 7 for each word, words 5, 9, 10 and 12 marked 3, 255, 2 and 0")?;
    print_answers(rt, &g)?;
    println!(rt; "its status leaves it as it is")?;
    print_stored(rt, &g.status().gathering)?;
    print_after_block(rt, "that has 7 for word 5", g, &[0, 5, 1, 0, 5, 0, 7])?;
    print_after_block(rt, "of version 2", g, &[0, 5, 2, 0, 5, 0, 7])?;
    let fresh = Gathering::fresh();
    let held = held_state();
    print_after_merge(rt, "it merges a fresh state", g, &fresh)?;
    print_after_merge(rt, "a fresh state merges it", fresh, &g)?;
    print_after_merge(rt, "it merges a state with 7 for each word", g, &held)?;
    print_after_merge(rt, "a state with 7 for each word merges it", held, &g)
}
