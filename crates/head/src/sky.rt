// Blocks on their way in eight slots, and what happens in a step of the storm. One that is sent again over another is lost; one that is handed
// out stays and may be handed out again.
ghost use Rattle.std.specs.Prelude.{◌<◌};

use crate::recipe::Recipe;

// What happens in a step.
#[derive(Clone, Copy, Debug, PartialEq, Eq)]
pub enum Event {
    // The head sends a block.
    Sent,
    // A viewer is handed one.
    Handed,
    // A viewer merges another's gathering.
    Merged,
    StartedAfresh,
}

impl Event {
    // The event that is drawn with a number.
    fn drawn(number: u32) -> Self {
        match number % 64 {
            0..=19 => Event::Sent,
            20..=56 => Event::Handed,
            57..=62 => Event::Merged,
            _ => Event::StartedAfresh,
        }
    }
}

// A step: what happens, to which viewer, whose gathering it merges, which word it is asked for (one in 105 is past the last), the recipe of the
// block that is sent or handed out, and that of another block.
#[derive(Clone, Copy, Debug, PartialEq, Eq)]
pub struct Step {
    pub event: Event,
    pub viewer: usize,
    pub other_viewer: usize,
    pub word: usize,
    pub recipe: Recipe,
    pub other_recipe: Recipe,
    ghost is_viewer: { viewer < 3 },
    ghost is_other_viewer: { other_viewer < 3 },
}

// The steps of the storm, without end.
#[derive(Clone, Copy, Debug)]
pub struct Sky {
    slots: [Recipe; 8],
    random: u32,
}

// The next of a fixed run of numbers that look random (Lehmer's).
fn random_after(random: u32) -> u32 {
    (u64::from(random) * 48271 % 2147483647) as u32
}

impl Sky {
    pub fn clear() -> Self {
        Sky {
            slots: [Recipe::from(1); 8],
            random: 1,
        }
    }
}

impl Iterator for Sky {
    type Item = Step;

    fn next(&mut self) -> Option<Step> {
        let draw = random_after(self.random);
        self.random = random_after(draw);
        let event = Event::drawn(draw);
        let slot = (draw / 576 % 8) as usize;
        if event == Event::Sent {
            self.slots[slot] = Recipe::from(self.random);
        }
        let other_viewer = (draw / 192 % 3) as usize;
        Some(Step {
            event,
            viewer: (draw / 64 % 3) as usize,
            other_viewer,
            word: (draw / 4608 % 840) as usize,
            recipe: self.slots[slot],
            other_recipe: self.slots[other_viewer],
        })
    }
}
