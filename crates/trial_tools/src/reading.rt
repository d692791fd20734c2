// The numbers of a table's lines. One that is missing, or that its type cannot hold, fails the line.
ghost use Rattle.std.specs.Prelude.{◌↔◌, ◌≡◌, ◌⊎◌, ◌≤◌, ◌++◌, [], ◌∷◌, length, IfSome, IsSome, IsTrue};

use std::num::ParseIntError;
use std::str;
use std::str::{FromStr, Split};

// What is left of a line: its fields, each parted from the next by a single space.
#[derive(Drop)]
pub struct Line<'a> {
    fields: Split<'a, char>,
}

impl<'a> Line<'a> {
    // A line as the table has it, the line feed behind it included.
    pub fn of(line: &'a [u8]) -> Option<Line<'a>> {
        let text = str::from_utf8(content(line)).ok()?;
        Some(Line {
            fields: text.split(' '),
        })
    }

    // The next number.
    pub fn number<N: FromStr<Err = ParseIntError>>(&mut self) -> Option<N> {
        number_in(self.fields.next()?)
    }

    // As many numbers as the next one says, in the first entries of the room.
    pub fn run<'r, N: FromStr<Err = ParseIntError> + Copy>(
        &mut self,
        room: &'r mut [N],
    ) -> Option<&'r mut [N]>
        ensures { IfSome result (λ run. length run.now ≤ length room.old) }
    {
        let count: usize = self.number()?;
        let run = room.get_mut(..count)?;
        for entry in run.iter_mut() {
            *entry = self.number()?;
        }
        Some(run)
    }

    // The sign that parts what is handed over from what is answered.
    pub fn equals_sign(&mut self) -> Option<()> {
        let field = self.fields.next()?;
        (field == "=").then_some(())
    }

    // The entries that a run should have, after their number.
    pub fn expect_run<N: FromStr<Err = ParseIntError> + Copy + PartialEq>(
        &mut self,
        run: &[N],
    ) -> Option<()> {
        same(self.number()?, run.len())?;
        for entry in run {
            same(self.number()?, *entry)?;
        }
        Some(())
    }

    // Fields left over are a fault too.
    pub fn end(&mut self) -> Option<()> {
        self.fields.next().is_none().then_some(())
    }
}

// What stands in a line, without the line feed behind it.
pub fn content(line: &[u8]) -> &[u8]
    ensures { (result.now ≡ line.now) ⊎ (result.now ++ 10 ∷ [] ≡ line.now) }
{
    line.strip_suffix(b"\n").unwrap_or(line)
}

// The number that a field is. None of a table has a plus, which `parse` would pass over.
pub fn number_in<N: FromStr<Err = ParseIntError>>(field: &str) -> Option<N> {
    if field.starts_with('+') {
        return None;
    }
    field.parse().ok()
}

// Nothing, where a line tells something else than what is wanted.
pub fn same<T: PartialEq + Drop>(told: T, wanted: T) -> Option<()>
    ensures { IsSome result ↔ IsTrue (T.eq told wanted) }
{
    (told == wanted).then_some(())
}

// The number of the digits that a line begins with, whatever stands behind them.
pub fn first_number(line: &[u8]) -> Option<usize> {
    let unsigned = line.strip_prefix(b"-").unwrap_or(line);
    let digits = unsigned.split(|b| !b.is_ascii_digit()).next()?;
    str::from_utf8(digits).ok()?.parse().ok()
}
