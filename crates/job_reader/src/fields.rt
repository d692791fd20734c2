// A signed number that has to pass a test of its own.
ghost use Rattle.std.specs.Prelude.{◌≡◌, ℤ, Bool};
ghost use Rattle.refusal.specs.Numbers.{number_of};
ghost use Rattle.number.specs.Field.{signed_field};
ghost use Rattle.number.specs.Answers.{as_part};
ghost use Rattle.job_reader.specs.Inner.{Decides};

use number::Cursor;
use refusal::{Fault, Refusal};

// The signed number at a cursor; one that does not pass has the fault `own`, placed where its field starts.
pub(crate) fn read_tested<F: FnOnce(i32) -> bool>(
    s: &[u8],
    c: Cursor,
    own: Fault,
    passes: F,
) -> Result<(i32, Cursor), Refusal>
    requires { F.IsAlwaysCallable passes }
    ensures { (allowed : ℤ → Bool) → Decides (F.post passes) allowed → as_part result ≡ signed_field (number_of own) allowed s.now c.at }
{
    let (z, next) = number::named(number::read_signed(s, c), own)?;
    if passes(z) {
        Ok((z, next))
    } else {
        Err(own.at(c.at))
    }
}
