// A kerb that was read, as a number and an entry of a lent run.
ghost use Rattle.std.specs.Prelude.{length};
ghost use Rattle.answer_run.specs.Answers.{TellEnsures};
ghost use Rattle.kerb_reader.specs.Answers.{kerb_by};
ghost use Rattle.kerb_told.specs.Entries.{ticks_told};
ghost use Rattle.kerb_told.specs.Inner.{TicksFit};

use told::{Numbered, Tell};

// A reading's number; how many vertices there are is written where it is not refused, and only there.
pub fn tell_ticks<R: Tell<Numbered>>(k: Result<usize, R>, answer: &mut [i64]) -> u32
    requires { TicksFit (kerb_by R.told k) (length answer.old) }
    ensures { TellEnsures (ticks_told (kerb_by R.told k)) answer.old result answer.new }
{
    match k {
        Ok(n) => {
            // Kept: the new form is no plainer: i64 has no From of a usize, and try_from would answer an error that cannot come.
            answer[0] = n as i64;
            0
        }
        Err(refusal) => match refusal.tell() {
            Numbered::At(number, byte) => answer_run::at_byte(number, byte),
            Numbered::Alone(number) => u32::from(number),
        },
    }
}
