// A bound for a whole table: where the largest terms leave room, no pixel of it can have a fault. A lifelike image meets it; where one doesn't, its rows decide.
ghost use Rattle.std.specs.Prelude.{◌≡◌, true, ◌<◌, ◌≤◌};
ghost use Rattle.util.specs.Words.{listed};
ghost use Rattle.walk.specs.Inner.Calm.{Reaches, LargestTerm, CalmOffset, CalmAlpha, CalmKta};

use crate::terms::{Bulk, COLUMN_BULK, ROW_BULK, nibble_at, scale_power};
use camera::{AVERAGE, OFFSET_COMPENSATION, SENSITIVITY_SCALE, V_AND_TA_SCALE};
use util::{i16_from_bits, magnitude};

// The size of the largest of the first count nibbles of the words from first on.
fn reach(words: &[u16; 832], first: usize, count: usize) -> u32
    requires { (first < 800) × (count ≤ 32) }
    ensures { Reaches (listed words.now) first count result }
{
    let sizes = (0..count).map(|k| magnitude(i32::from(nibble_at(words, first, k))));
    // A fold: the loop of max() has a comparison by an enum in it, and doesn't go through many nibbles at once; what that took stands beside `column_terms`.
    sizes.fold(0, u32::max)
}

// The size of the largest term of a bulk of the table whose words start at base.
fn largest_term(words: &[u16; 832], base: usize, bulk: Bulk) -> u32
    requires { base ≤ 32 }
    ensures { LargestTerm (listed words.now) base bulk.first bulk.low bulk.count result }
{
    reach(words, base + bulk.first, bulk.count) * u32::from(scale_power(words, base, bulk.low))
}

// Whether the average and the largest terms of the offset table stay in 16 bits together, so that no term and no sum of it can leave them.
pub(crate) fn calm_offset(words: &[u16; 832]) -> bool
    ensures { result ≡ true → CalmOffset (listed words.now) }
{
    let average = magnitude(i32::from(i16_from_bits(words[OFFSET_COMPENSATION + AVERAGE], 0, 16)));
    let rows = largest_term(words, OFFSET_COMPENSATION, ROW_BULK);
    let columns = largest_term(words, OFFSET_COMPENSATION, COLUMN_BULK);
    let power = u32::from(scale_power(words, OFFSET_COMPENSATION, 0));
    average + rows + columns + 32 * power < 32768
}

// Whether each of the largest terms of the alpha table stays in 16 bits. Its average doesn't count: alpha has no sum to test.
pub(crate) fn calm_alpha(words: &[u16; 832]) -> bool
    ensures { result ≡ true → CalmAlpha (listed words.now) }
{
    let rows = largest_term(words, SENSITIVITY_SCALE, ROW_BULK);
    let columns = largest_term(words, SENSITIVITY_SCALE, COLUMN_BULK);
    let own = 32 * u32::from(scale_power(words, SENSITIVITY_SCALE, 0));
    rows.max(columns).max(own) < 32768
}

// Whether the largest Kta term leaves room for any average.
pub(crate) fn calm_k_ta(words: &[u16; 832]) -> bool
    ensures { result ≡ true → CalmKta (listed words.now) }
{
    128 + 4 * u32::from(scale_power(words, V_AND_TA_SCALE, 0)) < 32768
}
