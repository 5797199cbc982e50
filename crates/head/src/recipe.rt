// A block's recipe: which words of which image it carries, and what happens to it on its way.
ghost use Rattle.std.specs.Prelude.{◌<◌, ◌≤◌, length};

use crate::damage::{Damage, Miscount};
use refusal::Refusal;

// Two images, which agree in every third word.
#[derive(Clone, Copy, Debug, PartialEq, Eq)]
enum Image {
    Common,
    Rare,
}

impl Image {
    // The value of word w.
    fn word(self, w: usize) -> u16 {
        let place = (w % 832) as u16;
        let common = place.wrapping_mul(40503);
        match self {
            Image::Common => common,
            Image::Rare => common.wrapping_add(place % 3 * 977),
        }
    }
}

#[derive(Clone, Copy, Debug, PartialEq, Eq)]
pub struct Recipe {
    image: Image,
    first: u16,
    words: u16,
    damage: Option<Damage>,
    ghost first_is_word: { first < 832 },
    ghost words_fit_block: { words ≤ 64 },
}

// What a number draws. One recipe in 32 takes the rare image.
impl From<u32> for Recipe {
    fn from(number: u32) -> Recipe {
        let image = match number / 53248 % 32 {
            0 => Image::Rare,
            _ => Image::Common,
        };
        Recipe {
            image,
            first: (number % 832) as u16,
            words: (1 + number / 832 % 64) as u16,
            damage: Damage::drawn(number / 1703936),
        }
    }
}

impl Recipe {
    // The first word's number.
    pub fn first(self) -> usize
        ensures { result < 832 }
    {
        usize::from(self.first)
    }

    // How its words are miscounted, if they are.
    fn miscount(self) -> Option<Miscount> {
        self.damage.and_then(Damage::miscount)
    }

    // How many words the block carries.
    pub fn count(self) -> usize
        ensures { result ≤ 65 }
    {
        match self.miscount() {
            Some(Miscount::TooManyWords) => 65,
            Some(Miscount::NoWords) => 0,
            _ => usize::from(self.words),
        }
    }

    // The value of the recipe's word k.
    pub fn value(self, k: usize) -> u16 {
        let value = self.image.word(self.first() + k % 832);
        if k == 0 && self.damage == Some(Damage::FirstValueHalved) {
            value / 2
        } else {
            value
        }
    }

    // The answer that the recipe asks for. Where two rules are broken, it is the one that goes first.
    pub fn expected(self) -> Result<(), Refusal> {
        match self.damage {
            Some(Damage::CutToOneByte | Damage::LastByteLost(_)) => Err(Refusal::BlockLength),
            Some(Damage::Miscounted(_)) => Err(Refusal::BlockCount),
            Some(Damage::OtherVersion) => Err(Refusal::BlockVersion),
            _ if 832 < self.first() + self.count() => Err(Refusal::BlockRange),
            _ => Ok(()),
        }
    }

    // The version byte: wrong in every other block whose length or count is refused, since these rules go before the version's.
    fn version(self) -> u8 {
        match self.damage {
            Some(Damage::OtherVersion) => 2,
            Some(Damage::FirstValueHalved) | None => 1,
            _ => 1 + (self.first % 2) as u8,
        }
    }

    // The block's bytes, as they come, in the room that is lent.
    pub fn block(self, room: &mut [u8; 140]) -> &[u8]
        ensures { length result.now ≤ 136 }
    {
        let count = self.count();
        let half = usize::from(self.miscount() == Some(Miscount::HalfWord));
        let body = 3 + 2 * count + half;
        *room = [0; 140];
        room[..2].copy_from_slice(&(body as u16).to_be_bytes());
        room[2] = self.version();
        room[3..5].copy_from_slice(&self.first.to_be_bytes());
        for k in 0..count {
            room[5 + 2 * k..7 + 2 * k].copy_from_slice(&self.value(k).to_be_bytes());
        }
        match self.damage {
            Some(Damage::CutToOneByte) => &room[..1],
            Some(Damage::LastByteLost(_)) => &room[..body + 1],
            _ => &room[..body + 2],
        }
    }
}
