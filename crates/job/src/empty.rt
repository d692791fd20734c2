// What unused entries of a job hold.
ghost use Rattle.std.specs.Prelude.{◌≡◌};
ghost use Rattle.job.specs.Empty.{empty_body, empty_units, empty_elements, empty_vehicle, empty_job};

use crate::{Body, Curve, Element, Form, Job, Start, Unit, Vehicle};

pub fn empty_body() -> Body
    ensures { result ≡ empty_body }
{
    Body {
        front_overhang: 0,
        rear_overhang: 0,
        half_width: 0,
    }
}

// The units and elements of a job that has none in use.
pub fn empty_units() -> [Unit; 4]
    ensures { result ≡ empty_units }
{
    let body = empty_body();
    [Unit {
        wheelbase: 0,
        hitch: 0,
        fold: 0,
        body,
    }; 4]
}

pub fn empty_elements() -> [Element; 64]
    ensures { result ≡ empty_elements }
{
    [Element {
        length: 0,
        curve: Curve::Straight,
    }; 64]
}

// A vehicle and a job that have nothing in use.
pub fn empty_vehicle() -> Vehicle
    ensures { result ≡ empty_vehicle }
{
    Vehicle {
        form: Form::Short,
        count: 0,
        units: empty_units(),
        overhang: 0,
        front_half_width: 0,
        rear_half_width: 0,
    }
}

#[tactic(auto, unfolding(crate::specs::Empty::empty_job))]
pub fn empty_job() -> Job
    ensures { result ≡ empty_job }
{
    Job {
        vehicle: empty_vehicle(),
        start: Start {
            x: 0,
            y: 0,
            gx: 0,
            gy: 0,
        },
        step: 0,
        count: 0,
        elements: empty_elements(),
    }
}
