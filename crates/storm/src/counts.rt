// How often each thing happened in a storm.
use head::{Event, Step};
use refusal::Refusal;
use std::fmt;

#[derive(Clone, Copy, Debug, Default, PartialEq, Eq)]
pub struct Counts {
    sent: u64,
    accepted: u64,
    // The blocks that were refused, by the rule that they broke.
    bad_length: u64,
    bad_count: u64,
    bad_version: u64,
    bad_range: u64,
    merged: u64,
    started_afresh: u64,
    // How often a viewer lacked no word after a step.
    full: u64,
}

impl Counts {
    // What a step was, and whether its viewer is now full.
    pub fn count(&mut self, step: Step, is_full: bool) {
        let happened = match step.event {
            Event::Sent => &mut self.sent,
            Event::Handed => match step.recipe.expected() {
                Ok(()) => &mut self.accepted,
                Err(Refusal::BlockLength) => &mut self.bad_length,
                Err(Refusal::BlockCount) => &mut self.bad_count,
                Err(Refusal::BlockVersion) => &mut self.bad_version,
                Err(_) => &mut self.bad_range,
            },
            Event::Merged => &mut self.merged,
            Event::StartedAfresh => &mut self.started_afresh,
        };
        *happened = happened.saturating_add(1);
        self.full = self.full.saturating_add(u64::from(is_full));
    }
}

impl fmt::Display for Counts {
    fn fmt<W: fmt::Write>(&self, f: &mut fmt::Formatter<W>) -> fmt::Result {
        writeln!(f, "sent {}", self.sent)?;
        writeln!(f, "accepted {}", self.accepted)?;
        writeln!(f, "refused 5 {}", self.bad_length)?;
        writeln!(f, "refused 6 {}", self.bad_count)?;
        writeln!(f, "refused 7 {}", self.bad_version)?;
        writeln!(f, "refused 8 {}", self.bad_range)?;
        writeln!(f, "merged {}", self.merged)?;
        writeln!(f, "started afresh {}", self.started_afresh)?;
        write!(f, "full {}", self.full)
    }
}
