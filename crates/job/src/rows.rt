// The units and the elements in use, tested one after the other.
ghost use Rattle.std.specs.Prelude.{◌≡◌, length};
ghost use Rattle.job.specs.Allowed.{element_allowed};
ghost use Rattle.job.specs.Faults.{units_fault, elements_fault};
ghost use Rattle.job.specs.Inner.{ElementsInUse};
ghost use Rattle.refusal.specs.Numbers.{fault_number};

use crate::{Element, Form, Unit, measures};
use refusal::Fault;

pub(crate) fn units_fault(form: Form, units: &[Unit]) -> Result<(), Fault>
    ensures { fault_number result ≡ units_fault form (length units.now) units.now }
{
    for (i, u) in units.iter().enumerate() {
        measures::unit_fault(form, i == 0, i + 1 == units.len(), *u)?;
    }
    Ok(())
}

fn element_allowed(e: Element) -> bool
    ensures { result ≡ element_allowed e }
{
    number::is_within(crate::LENGTH, e.length) && crate::curve_allowed(e.curve)
}

pub(crate) fn elements_fault(elements: &[Element], step: u32) -> Result<(), Fault>
    requires { ElementsInUse step (length elements.now) }
    ensures { fault_number result ≡ elements_fault step (length elements.now) elements.now }
{
    let mut total: u64 = 0;
    for e in elements {
        if !element_allowed(*e) {
            return Err(Fault::Element);
        }
        total = crate::tally_element(total, step, *e);
    }
    if crate::steps_allowed(total) {
        Ok(())
    } else {
        Err(Fault::StepTotal)
    }
}
