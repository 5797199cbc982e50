// Where a number of an image comes from, or why the image is refused, laid out in a slice.
ghost use Rattle.std.specs.Prelude.{◌≡◌, eqb, length};
ghost use Rattle.refusal.specs.Code.{accepted_by};
ghost use Rattle.explanation.specs.Explanation.{explanation_of};
ghost use Rattle.page.specs.Page.{image_in};
ghost use Rattle.mofuleka.specs.Answers.{refusal_word};
ghost use Rattle.mofuleka.specs.Images.{lent_after};
ghost use Rattle.mofuleka.specs.Explanations.{slice_explain_refusal, answer_bytes};

use crate::answers::{refusal_word, room_for};
use explanation::explain;
use layout::{EXPLANATION_BYTES, put_explanation};
use page::image_length;
use refusal::Verdict;

// Lays out what an image explains; nothing is written where the call is refused. The explanation's own refusals come first, then 2 for the slice.
fn lay_explanation(image: &[u8], table: u32, pixel: usize, out: &mut [u8]) -> Verdict
    ensures answer { result ≡ slice_explain_refusal image.now table pixel (length out.old) }
    ensures out { out.new ≡ lent_after (accepted_by result) (answer_bytes (explanation_of image.now table pixel)) out.old }
{
    let explained = explain(image, table, pixel)?;
    room_for(EXPLANATION_BYTES, out.len())?;
    put_explanation(explained, out);
    Ok(())
}

// Explains a pixel of a table of an image, or of a page that begins with one; where the decoder refuses the image with 3 or 4, the first failure in its place.
pub fn mofuleka_explain(image: &[u8], table: u32, pixel: usize, out: &mut [u8]) -> u64
    ensures answer { result ≡ refusal_word (slice_explain_refusal (image_in image.now) table pixel (length out.old)) }
    ensures out { out.new ≡ lent_after (eqb result 0) (answer_bytes (explanation_of (image_in image.now) table pixel)) out.old }
{
    let count = image_length(image.len());
    refusal_word(lay_explanation(&image[..count], table, pixel, out))
}
