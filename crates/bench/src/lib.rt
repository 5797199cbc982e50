// The decoder itself, for the benchmark alone: it takes no page, and the tables are in the machine's own order, as the library writes them. Crate `bench_c` gives it a C name.

#![tactic(auto)]

ghost use Rattle.std.specs.Prelude.{◌≡◌, eqb};
ghost use Rattle.refusal.specs.Code.{code_of, accepted_by};
ghost use Rattle.util.specs.Lists.{tab};
ghost use Rattle.record.specs.Fields.{record_of};
ghost use Rattle.tables.specs.Entries.{offset_at, alpha_at, kta_at};
ghost use Rattle.eeprom.specs.Image.{image_words};
ghost use Rattle.layout.specs.RecordBytes.{record_bytes};
ghost use Rattle.mofuleka.specs.Images.{lent_after};
ghost use Rattle.bench.specs.Bench.{own_refusal};

use eeprom::from_data;
use layout::{RECORD_BYTES, put_record};
use refusal::{Refusal, Verdict, code_of};

// Decodes an image into three tables and a record's bytes.
fn decode(
    image: &[u8],
    offset: &mut [i16],
    alpha: &mut [f32],
    k_ta: &mut [f32],
    record: &mut [u8],
) -> Verdict
    ensures answer { result ≡ own_refusal image.now offset.old alpha.old k_ta.old «record».old }
    ensures offset { offset.new ≡ lent_after (accepted_by result) (tab (offset_at (image_words image.now)) 768) offset.old }
    ensures alpha { alpha.new ≡ lent_after (accepted_by result) (tab (alpha_at (image_words image.now)) 768) alpha.old }
    ensures k_ta { k_ta.new ≡ lent_after (accepted_by result) (tab (kta_at (image_words image.now)) 768) k_ta.old }
    ensures record { «record».new ≡ lent_after (accepted_by result) (record_bytes (record_of (image_words image.now))) «record».old }
{
    if record.len() < RECORD_BYTES {
        return Err(Refusal::ShortSlice);
    }
    let decoded = from_data(image, offset, alpha, k_ta)?;
    put_record(decoded, record);
    Ok(())
}

// The same, which answers with the refusal's number.
pub fn bench_from_data(
    image: &[u8],
    offset: &mut [i16],
    alpha: &mut [f32],
    k_ta: &mut [f32],
    record: &mut [u8],
) -> u8
    ensures answer { result ≡ (code_of (own_refusal image.now offset.old alpha.old k_ta.old «record».old)).number }
    ensures offset { offset.new ≡ lent_after (eqb result 0) (tab (offset_at (image_words image.now)) 768) offset.old }
    ensures alpha { alpha.new ≡ lent_after (eqb result 0) (tab (alpha_at (image_words image.now)) 768) alpha.old }
    ensures k_ta { k_ta.new ≡ lent_after (eqb result 0) (tab (kta_at (image_words image.now)) 768) k_ta.old }
    ensures record { «record».new ≡ lent_after (eqb result 0) (record_bytes (record_of (image_words image.now))) «record».old }
{
    code_of(decode(image, offset, alpha, k_ta, record)).number
}
