// What happens to a block on its way.

// How many words a block has that no block may have.
#[derive(Clone, Copy, Debug, PartialEq, Eq)]
pub enum Miscount {
    // A byte follows the last word, and is counted.
    HalfWord,
    NoWords,
    TooManyWords,
}

#[derive(Clone, Copy, Debug, PartialEq, Eq)]
pub enum Damage {
    CutToOneByte,
    // Two things at once where the words are miscounted too.
    LastByteLost(Option<Miscount>),
    Miscounted(Miscount),
    OtherVersion,
    FirstValueHalved,
}

impl Damage {
    // The damage that is drawn with a number: 38 in 48 draw none.
    pub fn drawn(number: u32) -> Option<Damage> {
        let damage = match number % 48 {
            0 => Damage::CutToOneByte,
            1 => Damage::LastByteLost(None),
            2 => Damage::Miscounted(Miscount::HalfWord),
            3 => Damage::Miscounted(Miscount::NoWords),
            4 => Damage::Miscounted(Miscount::TooManyWords),
            5 => Damage::OtherVersion,
            6 => Damage::FirstValueHalved,
            7 => Damage::LastByteLost(Some(Miscount::HalfWord)),
            8 => Damage::LastByteLost(Some(Miscount::NoWords)),
            9 => Damage::LastByteLost(Some(Miscount::TooManyWords)),
            _ => return None,
        };
        Some(damage)
    }

    // How it miscounts the block's words, if it does.
    pub fn miscount(self) -> Option<Miscount> {
        match self {
            Damage::Miscounted(miscount) => Some(miscount),
            Damage::LastByteLost(miscount) => miscount,
            _ => None,
        }
    }
}
