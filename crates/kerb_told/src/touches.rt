// A report as a number and the entries of a lent run.
ghost use Rattle.std.specs.Prelude.{length};
ghost use Rattle.answer_run.specs.Answers.{TellEnsures};
ghost use Rattle.kerbed.specs.Answers.{kerbed_by};
ghost use Rattle.kerb_told.specs.Entries.{touch_told};
ghost use Rattle.kerb_told.specs.Inner.{AnswerFits};
ghost use Rattle.kerb_told.specs.Worked.{WorkedEntries};

use kerb_report::Touch;
use swept::SweepTold;
use told::Tell;

// A report's number; its entries are written where the walk is not refused, and only there.
pub fn tell_touch<R: Tell<SweepTold>>(k: Result<Option<Touch>, R>, answer: &mut [i64]) -> u32
    requires { AnswerFits (kerbed_by R.told k) (length answer.old) }
    ensures { TellEnsures (touch_told (kerbed_by R.told k)) answer.old result answer.new }
{
    match k {
        Ok(None) => {
            answer_run::put_entries(answer, 0, [0, 0, 0]);
            0
        }
        Ok(Some(touch)) => {
            // Kept: the new form is no plainer: i64 has no From of a usize, and try_from would answer an error that cannot come.
            answer_run::put_entries(answer, 0, [1, touch.step as i64, touch.point as i64]);
            0
        }
        Err(refusal) => entries::refusal_number(refusal),
    }
}

// Claim: the entries of each kind of answer, one by one.
pub fn worked_entries()
    ensures { WorkedEntries }
{}
