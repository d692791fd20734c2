// The start of a record, its step and its elements.
ghost use Rattle.std.specs.Prelude.{◌≡◌};
ghost use Rattle.number.specs.Answers.{as_part};
ghost use Rattle.job.specs.Curves.{curve_of};
ghost use Rattle.job.specs.Inner.{ElementsInUse};
ghost use Rattle.job_reader.specs.Record.{read_start, read_element, read_elements, read_path};

use crate::fields;
use job::{Curve, Element, Job, Side, Start, Vehicle};
use number::Cursor;
use refusal::{Fault, Refusal};

// The heading is tested after gy; its refusal is placed at gx.
pub(crate) fn read_start(s: &[u8], c: Cursor) -> Result<(Start, Cursor), Refusal>
    ensures { as_part result ≡ read_start s.now c.at }
{
    let (x, c1) = number::named(number::read_sized(s, c, job::COORDINATE), Fault::Start)?;
    let (y, c2) = number::named(number::read_sized(s, c1, job::COORDINATE), Fault::Start)?;
    let (gx, c3) = number::named(number::read_signed(s, c2), Fault::Start)?;
    let (gy, c4) = number::named(number::read_signed(s, c3), Fault::Start)?;
    if job::heading_allowed(gx, gy) {
        return Ok((Start { x, y, gx, gy }, c4));
    }
    Err(Fault::Start.at(c2.at))
}

// A positive radius turns right.
fn curve_of(radius: i32) -> Curve
    ensures { result ≡ curve_of radius }
{
    if radius == 0 {
        Curve::Straight
    } else if radius > 0 {
        Curve::Arc(Side::Right, radius.unsigned_abs())
    } else {
        Curve::Arc(Side::Left, radius.unsigned_abs())
    }
}

fn read_element(s: &[u8], c: Cursor) -> Result<(Element, Cursor), Refusal>
    ensures { as_part result ≡ read_element s.now c.at }
{
    let (length, c1) = number::named(number::read_within(s, c, job::LENGTH), Fault::Element)?;
    let (radius, c2) = fields::read_tested(s, c1, Fault::Element, |r| {
        job::curve_allowed(curve_of(r))
    })?;
    let curve = curve_of(radius);
    Ok((Element { length, curve }, c2))
}

// The total of steps runs along; it is tested after all elements, and its refusal is placed at their number.
fn read_elements(
    s: &[u8],
    c: Cursor,
    count: usize,
    step: u32,
    place: usize,
) -> Result<([Element; 64], Cursor), Refusal>
    requires { ElementsInUse step count }
    ensures { as_part result ≡ read_elements step place count s.now c.at }
{
    let mut elements = job::empty_elements();
    let mut at = c;
    let mut total: u64 = 0;
    for slot in elements[..count].iter_mut() {
        let (element, next) = read_element(s, at)?;
        *slot = element;
        total = job::tally_element(total, step, element);
        at = next;
    }
    if job::steps_allowed(total) {
        return Ok((elements, at));
    }
    Err(Fault::StepTotal.at(place))
}

// The step and the elements, behind a vehicle and a start.
pub(crate) fn read_path(
    s: &[u8],
    c: Cursor,
    vehicle: Vehicle,
    start: Start,
) -> Result<(Job, Cursor), Refusal>
    ensures { as_part result ≡ read_path vehicle start s.now c.at }
{
    let (step, c1) = number::named(number::read_within(s, c, job::STEP), Fault::Step)?;
    let (count, c2) = number::named(
        number::read_within(s, c1, job::ELEMENT_COUNT),
        Fault::Element,
    )?;
    // Kept: the new form is no plainer: usize has no From of a u32, and try_from would answer an error that cannot come.
    let count = count as usize;
    let (elements, c3) = read_elements(s, c2, count, step, c1.at)?;
    let job = Job {
        vehicle,
        start,
        step,
        count,
        elements,
    };
    Ok((job, c3))
}
