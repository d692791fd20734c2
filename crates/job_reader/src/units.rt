// The vehicle of a record: the number that announces it, its units, then the overhang and the half widths.
ghost use Rattle.std.specs.Prelude.{◌≡◌};
ghost use Rattle.number.specs.Answers.{as_part};
ghost use Rattle.job.specs.Inner.{UnitsInUse};
ghost use Rattle.job_reader.specs.Record.{read_unit, read_units, read_widths, read_vehicle};

use crate::{body, fields, first};
use job::{Form, Unit, Vehicle};
use number::Cursor;
use refusal::{Fault, Refusal};

fn read_unit(
    s: &[u8],
    c: Cursor,
    form: Form,
    first: bool,
    last: bool,
) -> Result<(Unit, Cursor), Refusal>
    ensures { as_part result ≡ read_unit form first last s.now c.at }
{
    let (wheelbase, c1) = number::named(number::read_within(s, c, job::WHEELBASE), Fault::Unit)?;
    let sized = number::read_sized(s, c1, job::hitch_most(last, wheelbase));
    let (hitch, c2) = number::named(sized, Fault::Unit)?;
    let (fold, c3) = fields::read_tested(s, c2, Fault::Unit, |z| job::fold_allowed(first, z))?;
    let (body, c4) = body::read_body_of(s, c3, form)?;
    let unit = Unit {
        wheelbase,
        hitch,
        fold,
        body,
    };
    Ok((unit, c4))
}

fn read_units(s: &[u8], c: Cursor, form: Form, count: usize) -> Result<([Unit; 4], Cursor), Refusal>
    requires { UnitsInUse count }
    ensures { as_part result ≡ read_units form count s.now c.at }
{
    let mut units = job::empty_units();
    let mut at = c;
    for (i, place) in units[..count].iter_mut().enumerate() {
        let (unit, next) = read_unit(s, at, form, i == 0, i + 1 == count)?;
        *place = unit;
        at = next;
    }
    Ok((units, at))
}

// The overhang and the half widths, which stand once after all units.
// Kept: a rule of the project needs an array with its count: there is no heap; both go into the vehicle as they are.
fn read_widths(
    s: &[u8],
    c: Cursor,
    form: Form,
    count: usize,
    units: [Unit; 4],
) -> Result<(Vehicle, Cursor), Refusal>
    ensures { as_part result ≡ read_widths form count units s.now c.at }
{
    let range = job::overhang_range(form);
    let (overhang, c1) = number::named(number::read_within(s, c, range), Fault::Width)?;
    let (front_half_width, c2) = number::named(
        number::read_within(s, c1, job::HALF_WIDTH),
        Fault::Width,
    )?;
    let (rear_half_width, c3) = number::named(
        number::read_within(s, c2, job::HALF_WIDTH),
        Fault::Width,
    )?;
    let vehicle = Vehicle {
        form,
        count,
        units,
        overhang,
        front_half_width,
        rear_half_width,
    };
    Ok((vehicle, c3))
}

pub(crate) fn read_vehicle(s: &[u8], c: Cursor) -> Result<(Vehicle, Cursor), Refusal>
    ensures { as_part result ≡ read_vehicle s.now c.at }
{
    let ((form, count), c1) = first::read_announced(s, c)?;
    let (units, c2) = read_units(s, c1, form, count)?;
    read_widths(s, c2, form, count, units)
}
