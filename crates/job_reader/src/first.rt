// The first number of a record: it tells a short job from a long one, and how many units follow.
ghost use Rattle.std.specs.Prelude.{◌≡◌};
ghost use Rattle.number.specs.Answers.{as_part};
ghost use Rattle.job_reader.specs.Inner.{read_announced};

use job::Form;
use number::Cursor;
use refusal::{Fault, Refusal};

// 1 to 4 announce so many units of a short job, 11 to 14 one to four of a long one.
pub(crate) fn read_announced(s: &[u8], c: Cursor) -> Result<((Form, usize), Cursor), Refusal>
    ensures { as_part result ≡ read_announced s.now c.at }
{
    let (n, next) = number::named(number::read(s, c), Fault::UnitCount)?;
    // Kept: the new form is no plainer: usize has no From of a u32, and try_from would answer an error that cannot come.
    match n {
        1..=4 => Ok(((Form::Short, n as usize), next)),
        11..=14 => Ok(((Form::Long, (n - 10) as usize), next)),
        _ => Err(Fault::UnitCount.at(c.at)),
    }
}
