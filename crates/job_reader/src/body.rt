// The body of a unit, whose three fields stand in a long job only.
ghost use Rattle.std.specs.Prelude.{◌≡◌};
ghost use Rattle.number.specs.Answers.{as_part};
ghost use Rattle.job_reader.specs.Record.{read_body, read_body_of};

use job::{Body, Form};
use number::Cursor;
use refusal::{Fault, Refusal};

fn read_body(s: &[u8], c: Cursor) -> Result<(Body, Cursor), Refusal>
    ensures { as_part result ≡ read_body s.now c.at }
{
    let (front_overhang, c1) = number::named(
        number::read_within(s, c, job::OVERHANG),
        Fault::Width,
    )?;
    let (rear_overhang, c2) = number::named(
        number::read_within(s, c1, job::OVERHANG),
        Fault::Width,
    )?;
    let (half_width, c3) = number::named(
        number::read_within(s, c2, job::HALF_WIDTH),
        Fault::Width,
    )?;
    let body = Body {
        front_overhang,
        rear_overhang,
        half_width,
    };
    Ok((body, c3))
}

// A short job's bodies come back zero.
pub(crate) fn read_body_of(s: &[u8], c: Cursor, form: Form) -> Result<(Body, Cursor), Refusal>
    ensures { as_part result ≡ read_body_of form s.now c.at }
{
    match form {
        Form::Short => Ok((job::empty_body(), c)),
        Form::Long => read_body(s, c),
    }
}
