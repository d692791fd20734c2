// A job's answers as programs in C and Rust get them: a number, and the entries at the start of a lent run.
#![tactic(auto)]

pub mod lists;

ghost use Rattle.std.specs.Prelude.{◌≡◌, length};
ghost use Rattle.std.proofs.lemmas.List.Edits.{sets};
ghost use Rattle.answer_run.specs.Answers.{TellEnsures};
ghost use Rattle.swept.specs.Answers.{swept_by};
ghost use Rattle.entries.specs.Answers.{sweep_told, refusal_told, finish_entries};
ghost use Rattle.entries.specs.Inner.{FinishFits, AnswerFits, RefusalFits};
ghost use Rattle.entries.specs.Worked.{WorkedEntries};

use run::Finish;
use swept::SweepTold;
use told::Tell;

// A walk that came to its last station: zeros stand for a widest place where no station is complete.
fn put_finish(run: &mut [i64], finish: Finish)
    requires { FinishFits finish (length run.old) }
    ensures { run.new ≡ sets run.old 0 (finish_entries finish) }
{
    // Kept: the new form is no plainer: i64 has no From of a usize, and try_from would answer an error that cannot come.
    let steps = finish.steps as i64;
    let front = finish.front;
    let entries = match finish.widest {
        None => [steps, 0, 0, 0, 0, 0, front.x, front.y],
        Some(p) => {
            // Kept: the cast, for the reason given above.
            let station = p.station as i64;
            [
                steps, 1, station, p.width, p.left, p.right, front.x, front.y,
            ]
        }
    };
    answer_run::put_entries(run, 0, entries);
}

// A refusal in one number, with the unit and the step beside it, or with the byte.
pub fn refusal_number<R: Tell<SweepTold>>(refusal: R) -> u32
    requires { RefusalFits (R.told refusal) }
    ensures { result ≡ refusal_told (R.told refusal) }
{
    match refusal.tell() {
        SweepTold::Stopped(number, unit, step) => answer_run::at_unit(number, unit, step),
        SweepTold::Refused(number, byte) => answer_run::at_byte(number, byte),
    }
}

// An answer's number; its entries are written where the walk is finished, and only there.
pub fn tell_sweep<R: Tell<SweepTold>>(swept: Result<Finish, R>, answer: &mut [i64]) -> u32
    requires { AnswerFits (swept_by R.told swept) (length answer.old) }
    ensures { TellEnsures (sweep_told (swept_by R.told swept)) answer.old result answer.new }
{
    match swept {
        Ok(finish) => {
            put_finish(answer, finish);
            0
        }
        Err(refusal) => refusal_number(refusal),
    }
}

// Claim: the entries of each kind of answer, one by one.
pub fn worked_entries()
    ensures { WorkedEntries }
{}
