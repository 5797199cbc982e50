// Where a number of an image comes from, or why the image is refused, laid out in a slice.
ghost use Rattle.std.specs.Prelude.{◌≡◌, eqb, length};
ghost use Rattle.explanation.specs.Explanation.{explanation_of};
ghost use Rattle.page.specs.Page.{image_in};
ghost use Rattle.mofuleka.specs.Answers.{refusal_word};
ghost use Rattle.mofuleka.specs.Images.{lent_after};
ghost use Rattle.mofuleka.specs.Explanations.{slice_explain_refusal, answer_bytes};

// Explains a pixel of a table of an image, or of a page that begins with one; where the decoder refuses the image with 3 or 4, the first failure in its place.
#[unsafe(no_mangle)]
pub extern "C" fn mofuleka_explain(image: &[u8], table: u32, pixel: usize, out: &mut [u8]) -> u64
    ensures answer { result ≡ refusal_word (slice_explain_refusal (image_in image.now) table pixel (length out.old)) }
    ensures out { out.new ≡ lent_after (eqb result 0) (answer_bytes (explanation_of (image_in image.now) table pixel)) out.old }
{
    mofuleka::mofuleka_explain(image, table, pixel, out)
}
