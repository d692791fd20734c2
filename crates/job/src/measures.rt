// The measures of a vehicle: a unit's, its body's, and the widths that stand once.
ghost use Rattle.std.specs.Prelude.{◌≡◌};
ghost use Rattle.job.specs.Allowed.{unit_allowed, body_allowed, widths_allowed};
ghost use Rattle.job.specs.Faults.{measures_fault, body_fault, unit_fault};
ghost use Rattle.refusal.specs.Numbers.{fault_number};

use crate::{Body, Form, Unit, Vehicle};
use refusal::Fault;

fn unit_allowed(first: bool, last: bool, u: Unit) -> bool
    ensures { result ≡ unit_allowed first last u }
{
    number::is_within(crate::WHEELBASE, u.wheelbase)
        && u.hitch.unsigned_abs() <= crate::hitch_most(last, u.wheelbase)
        && crate::fold_allowed(first, u.fold)
}

fn measures_fault(first: bool, last: bool, u: Unit) -> Result<(), Fault>
    ensures { fault_number result ≡ measures_fault first last u }
{
    if unit_allowed(first, last, u) {
        Ok(())
    } else {
        Err(Fault::Unit)
    }
}

fn body_allowed(b: Body) -> bool
    ensures { result ≡ body_allowed b }
{
    number::is_within(crate::OVERHANG, b.front_overhang)
        && number::is_within(crate::OVERHANG, b.rear_overhang)
        && number::is_within(crate::HALF_WIDTH, b.half_width)
}

// A short job's bodies are never read.
fn body_fault(form: Form, b: Body) -> Result<(), Fault>
    ensures { fault_number result ≡ body_fault form b }
{
    if form == Form::Short || body_allowed(b) {
        Ok(())
    } else {
        Err(Fault::Width)
    }
}

// A unit's measures come first, then its body.
pub(crate) fn unit_fault(form: Form, first: bool, last: bool, u: Unit) -> Result<(), Fault>
    ensures { fault_number result ≡ unit_fault form first last u }
{
    measures_fault(first, last, u)?;
    body_fault(form, u.body)
}

pub(crate) fn widths_allowed(v: Vehicle) -> bool
    ensures { result ≡ widths_allowed v }
{
    number::is_within(crate::overhang_range(v.form), v.overhang)
        && number::is_within(crate::HALF_WIDTH, v.front_half_width)
        && number::is_within(crate::HALF_WIDTH, v.rear_half_width)
}
