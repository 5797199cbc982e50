// Images in lent bytes: the decoder's tables and record, laid out in four slices.
ghost use Rattle.std.specs.Prelude.{◌≡◌, eqb};
ghost use Rattle.eeprom.specs.Image.{image_words};
ghost use Rattle.layout.specs.RecordBytes.{record_bytes, record_in};
ghost use Rattle.page.specs.Page.{image_in};
ghost use Rattle.record.specs.Fields.{record_of};
ghost use Rattle.mofuleka.specs.Answers.{refusal_word};
ghost use Rattle.mofuleka.specs.Images.{slices_refusal, lent_after, offset_bytes, alpha_bytes, kta_bytes};

// Decodes an image, or a page that begins with one, into the three tables and the record. What the record's bytes are then asked is answered as the image's record is.
#[unsafe(no_mangle)]
pub extern "C" fn mofuleka_from_data(
    image: &[u8],
    offset: &mut [u8],
    alpha: &mut [u8],
    k_ta: &mut [u8],
    record: &mut [u8],
) -> u64
    ensures answer { result ≡ refusal_word (slices_refusal (image_in image.now) offset.old alpha.old k_ta.old «record».old) }
    ensures offset { offset.new ≡ lent_after (eqb result 0) (offset_bytes (image_words (image_in image.now))) offset.old }
    ensures alpha { alpha.new ≡ lent_after (eqb result 0) (alpha_bytes (image_words (image_in image.now))) alpha.old }
    ensures k_ta { k_ta.new ≡ lent_after (eqb result 0) (kta_bytes (image_words (image_in image.now))) k_ta.old }
    ensures record { «record».new ≡ lent_after (eqb result 0) (record_bytes (record_of (image_words (image_in image.now)))) «record».old }
    ensures stored { result ≡ 0 → record_in «record».new ≡ record_of (image_words (image_in image.now)) }
{
    mofuleka::mofuleka_from_data(image, offset, alpha, k_ta, record)
}
