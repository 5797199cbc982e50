// Images in lent bytes: the decoder's tables and record, laid out in four slices.
ghost use Rattle.std.specs.Prelude.{◌≡◌, true, false, cond, ◌≤◌, eqb, length, is_ok, IfOk, MatchResult};
ghost use Rattle.refusal.specs.Code.{verdict_of};
ghost use Rattle.eeprom.specs.Image.{image_words};
ghost use Rattle.layout.specs.Numbers.{shorts_bytes, floats_bytes};
ghost use Rattle.layout.specs.Inner.Plain.{NoNan};
ghost use Rattle.layout.specs.RecordBytes.{record_bytes, record_in};
ghost use Rattle.page.specs.Page.{image_in};
ghost use Rattle.record.specs.Fields.{record_of};
ghost use Rattle.mofuleka.specs.Answers.{refusal_word};
ghost use Rattle.mofuleka.specs.Images.{too_short, slices_refusal, lent_after, offset_bytes, alpha_bytes, kta_bytes};

use crate::answers::refusal_word;
use eeprom::from_data;
use layout::{
    ALPHA_TABLE_BYTES, K_TA_TABLE_BYTES, OFFSET_TABLE_BYTES, RECORD_BYTES, put_all, put_record,
    put_table,
};
use page::image_length;
use record::Record;
use refusal::{Refusal, Verdict};

// Whether one of the four slices has too few bytes for its layout.
fn too_short(offset: usize, alpha: usize, k_ta: usize, record: usize) -> bool
    ensures { result ≡ too_short offset alpha k_ta «record» }
{
    offset < OFFSET_TABLE_BYTES
        || alpha < ALPHA_TABLE_BYTES
        || k_ta < K_TA_TABLE_BYTES
        || record < RECORD_BYTES
}

// How many entries of its tables the decoder is lent: none where a slice is too short for its layout, so that it refuses with 2 in its own order.
pub(crate) fn entries(offset: usize, alpha: usize, k_ta: usize, record: usize) -> usize
    ensures value { result ≡ cond (too_short offset alpha k_ta «record») 0 768 }
    ensures upper_bound { result ≤ 768 }
{
    if too_short(offset, alpha, k_ta, record) {
        0
    } else {
        768
    }
}

// Lays out what was decoded, the record and the three tables, in four slices; nothing is written where the call is refused.
pub(crate) fn lay_out(
    decoded: Result<Record, Refusal>,
    offsets: &[i16; 768],
    alphas: &[f32; 768],
    k_tas: &[f32; 768],
    offset: &mut [u8],
    alpha: &mut [u8],
    k_ta: &mut [u8],
    record: &mut [u8],
) -> Verdict
    requires room { is_ok decoded ≡ true → too_short (length offset.old) (length alpha.old) (length k_ta.old) (length «record».old) ≡ false }
    requires no_nan { is_ok decoded ≡ true → NoNan alphas.now × NoNan k_tas.now }
    ensures answer { result ≡ verdict_of decoded }
    ensures offset { offset.new ≡ lent_after (is_ok decoded) (shorts_bytes offsets.now) offset.old }
    ensures alpha { alpha.new ≡ lent_after (is_ok decoded) (floats_bytes alphas.now) alpha.old }
    ensures k_ta { k_ta.new ≡ lent_after (is_ok decoded) (floats_bytes k_tas.now) k_ta.old }
    ensures record { MatchResult decoded (λ r. «record».new ≡ lent_after true (record_bytes r) «record».old) (λ e. «record».new ≡ «record».old) }
    ensures stored { IfOk decoded (λ r. record_in «record».new ≡ r) }
{
    let laid = decoded?;
    put_all(offset, 0, offsets);
    put_table(alpha, alphas);
    put_table(k_ta, k_tas);
    put_record(laid, record);
    Ok(())
}

// Decodes an image, or a page that begins with one, into the three tables and the record. What the record's bytes are then asked is answered as the image's record is.
pub fn mofuleka_from_data(
    image: &[u8],
    offset: &mut [u8],
    alpha: &mut [u8],
    k_ta: &mut [u8],
    record: &mut [u8],
) -> u64
    ensures answer { result ≡ refusal_word (slices_refusal (image_in image.now) offset.old alpha.old k_ta.old «record».old) }
    ensures offset { offset.new ≡ lent_after (eqb result 0) (offset_bytes (image_words (image_in image.now))) offset.old }
    ensures alpha { alpha.new ≡ lent_after (eqb result 0) (alpha_bytes (image_words (image_in image.now))) alpha.old }
    ensures k_ta { k_ta.new ≡ lent_after (eqb result 0) (kta_bytes (image_words (image_in image.now))) k_ta.old }
    ensures record { «record».new ≡ lent_after (eqb result 0) (record_bytes (record_of (image_words (image_in image.now)))) «record».old }
    ensures stored { result ≡ 0 → record_in «record».new ≡ record_of (image_words (image_in image.now)) }
{
    let room = entries(offset.len(), alpha.len(), k_ta.len(), record.len());
    let count = image_length(image.len());
    let mut offsets = [0i16; 768];
    let mut alphas = [0.0f32; 768];
    let mut k_tas = [0.0f32; 768];
    let decoded = from_data(
        &image[..count],
        &mut offsets[..room],
        &mut alphas[..room],
        &mut k_tas[..room],
    );
    refusal_word(lay_out(
        decoded, &offsets, &alphas, &k_tas, offset, alpha, k_ta, record,
    ))
}
