// What a job and a kerb came to, as the lines that the program prints, and as entries of a lent run.
#![tactic(auto)]

pub mod ticks;
pub mod touches;

ghost use Rattle.answer_text.specs.Answers.{TextIs};
ghost use Rattle.answer_text.specs.Appending.{nothing, Line};
ghost use Rattle.kerbed.specs.Answers.{kerbed_by};
ghost use Rattle.kerb_told.specs.Printed.{touch_line, none_line, printed_kerb};
ghost use Rattle.kerb_told.specs.Forms.{KerbForms};

use answer_text::Text;
use kerb_report::Touch;
use swept::SweepTold;
use told::Tell;

fn touch_text(touch: Touch) -> Text
    ensures { Line nothing (touch_line touch.step touch.point) 48 result }
{
    // Kept: the new form is no plainer: u64 has no From of a usize, and try_from would answer an error that cannot come.
    Text::empty()
        .put_number(b"touch ", touch.step as u64)
        .put_number(b" ", touch.point as u64)
        .put_words(b"\n")
}

fn none_text() -> Text
    ensures { Line nothing none_line 11 result }
{
    Text::empty().put_words(b"touch none\n")
}

// Any answer's line: the longest of them fits.
pub fn kerb_text<R: Tell<SweepTold>>(k: Result<Option<Touch>, R>) -> Text
    ensures { TextIs (printed_kerb (kerbed_by R.told k)) result }
{
    match k {
        Ok(None) => none_text(),
        Ok(Some(touch)) => touch_text(touch),
        Err(refusal) => answer_text::refusal_text(refusal),
    }
}

// Claim: the printed forms of N4, word for word.
pub fn kerb_forms()
    ensures { KerbForms }
{}
