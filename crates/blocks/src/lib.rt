// Blocks, as they come from a head: up to 64 words of an image with the number of the first one. What is not a block is refused.

#![tactic(auto)]

ghost use Rattle.std.specs.Prelude.{◌≡◌};
ghost use Rattle.blocks.specs.Blocks.{read_block};
ghost use Rattle.blocks.specs.Inner.Inside.{Inside};

use refusal::Refusal;

// A block's words: the number of the first one, and how many there are.
#[derive(Clone, Copy, Debug, PartialEq, Eq)]
pub struct Block {
    pub first: usize,
    pub count: usize,
}

// A block's words, or the first refusal that it earns.
pub fn read_block(block: &[u8]) -> Result<Block, Refusal>
    ensures value { result ≡ read_block block.now }
    ensures inside { Inside block.now result }
{
    let l = usize::from(util::word(block, 0));
    if block.len() < 2 || block.len() != l + 2 {
        return Err(Refusal::BlockLength);
    }
    if l < 5 || 131 < l || l % 2 == 0 {
        return Err(Refusal::BlockCount);
    }
    if block[2] != 1 {
        return Err(Refusal::BlockVersion);
    }
    let first = usize::from(util::word(&block[3..], 0));
    let count = (l - 3) / 2;
    if 832 < first + count {
        return Err(Refusal::BlockRange);
    }
    Ok(Block { first, count })
}
