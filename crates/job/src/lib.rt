// The job: its types, what its fields may hold, and the test of a job handed over by value.
#![tactic(auto)]

mod empty;
mod measures;
mod rows;

ghost use Rattle.std.specs.Prelude.{◌≡◌};
ghost use Rattle.number.specs.Field.{within, size_at_most};
ghost use Rattle.job.specs.Allowed.{hitch_most, fold_allowed, overhang_most, curve_allowed, heading_allowed, start_allowed};
ghost use Rattle.job.specs.Steps.{steps_of, tally, steps_allowed};
ghost use Rattle.job.specs.Faults.{vehicle_fault, judge as judge_of};
ghost use Rattle.job.specs.Inner.{Countable};
ghost use Rattle.refusal.specs.Numbers.{fault_number};

pub use empty::{empty_body, empty_elements, empty_job, empty_units, empty_vehicle};
use number::Range;
use plane::Vec2;
use refusal::Fault;

#[derive(Clone, Copy)]
pub enum Side {
    Left,
    Right,
}

// A path element is a straight, or an arc with its turn side and the size of its radius.
#[derive(Clone, Copy)]
pub enum Curve {
    Straight,
    Arc(Side, u32),
}

#[derive(Clone, Copy)]
pub struct Element {
    pub length: u32,
    pub curve: Curve,
}

// How far a unit's body reaches beyond its front point and its rear axle, and to either side.
#[derive(Clone, Copy, PartialEq, Eq)]
pub struct Body {
    pub front_overhang: u32,
    pub rear_overhang: u32,
    pub half_width: u32,
}

// The hitch lies so far ahead of the rear axle; the fold limit is in thousandths.
#[derive(Clone, Copy, PartialEq, Eq)]
pub struct Unit {
    pub wheelbase: u32,
    pub hitch: i32,
    pub fold: i32,
    pub body: Body,
}

// A long job has bodies; those of a short one are never read.
#[derive(Clone, Copy, PartialEq, Eq)]
pub enum Form {
    Short,
    Long,
}

// Kept: a rule of the project needs an array with its count: there is no heap, and what is promised of unused units speaks of them.
#[derive(Clone, Copy, PartialEq, Eq)]
pub struct Vehicle {
    pub form: Form,
    pub count: usize,
    pub units: [Unit; 4],
    pub overhang: u32,
    pub front_half_width: u32,
    pub rear_half_width: u32,
}

#[derive(Clone, Copy)]
pub struct Start {
    pub x: i32,
    pub y: i32,
    pub gx: i32,
    pub gy: i32,
}

// Kept: an array with its count, for the same reasons as a vehicle's units.
#[derive(Clone, Copy)]
pub struct Job {
    pub vehicle: Vehicle,
    pub start: Start,
    pub step: u32,
    pub count: usize,
    pub elements: [Element; 64],
}

pub const UNIT_COUNT: Range = Range { least: 1, most: 4 };

pub const WHEELBASE: Range = Range {
    least: 5000,
    most: 200000,
};

pub const OVERHANG: Range = Range {
    least: 0,
    most: 50000,
};

const NO_OVERHANG: Range = Range { least: 0, most: 0 };

pub const HALF_WIDTH: Range = Range {
    least: 1000,
    most: 20000,
};

pub const COORDINATE: u32 = 100000000;

pub const STEP: Range = Range {
    least: 100,
    most: 20000,
};

pub const ELEMENT_COUNT: Range = Range { least: 1, most: 64 };

pub const LENGTH: Range = Range {
    least: 1,
    most: 40000000,
};

pub const RADIUS: Range = Range {
    least: 20000,
    most: 1000000,
};

// The greatest size of a hitch; the last unit has none.
pub fn hitch_most(last: bool, wheelbase: u32) -> u32
    ensures { result ≡ hitch_most last wheelbase }
{
    if last { 0 } else { wheelbase }
}

pub fn fold_allowed(first: bool, fold: i32) -> bool
    ensures { result ≡ fold_allowed first fold }
{
    if first {
        fold == 0
    } else {
        (-1000..=990).contains(&fold)
    }
}

// The range of the overhang that stands once, after all units: bodies have their own.
pub fn overhang_range(form: Form) -> Range
    ensures { result ≡ record { least = 0; most = overhang_most form } }
{
    match form {
        Form::Short => OVERHANG,
        Form::Long => NO_OVERHANG,
    }
}

// Kept: the new form is no plainer: a Vec2 is wider, so each caller would make one of two fields to have it tested.
#[tactic(auto, unfolding(crate::specs::Allowed::heading_allowed))]
pub fn heading_allowed(gx: i32, gy: i32) -> bool
    ensures { result ≡ heading_allowed gx gy }
{
    let x = i64::from(gx);
    let y = i64::from(gy);
    plane::has_length(Vec2 { x, y }, 1000000)
}

pub fn curve_allowed(curve: Curve) -> bool
    ensures { result ≡ curve_allowed curve }
{
    match curve {
        Curve::Straight => true,
        Curve::Arc(_, radius) => number::is_within(RADIUS, radius),
    }
}

fn start_allowed(s: Start) -> bool
    ensures { result ≡ start_allowed s }
{
    s.x.unsigned_abs() <= COORDINATE
        && s.y.unsigned_abs() <= COORDINATE
        && heading_allowed(s.gx, s.gy)
}

// The running total of steps after one element more.
pub fn tally_element(total: u64, step: u32, e: Element) -> u64
    requires { Countable step total }
    ensures { result ≡ tally step total e }
{
    total + u64::from(e.length.div_ceil(step))
}

pub fn steps_allowed(total: u64) -> bool
    ensures { result ≡ steps_allowed total }
{
    total <= 2000
}

// The first fault of a vehicle: its number of units, a unit or a width.
pub fn vehicle_fault(v: Vehicle) -> Result<(), Fault>
    ensures { fault_number result ≡ vehicle_fault v }
{
    if !is_within_count(UNIT_COUNT, v.count) {
        return Err(Fault::UnitCount);
    }
    rows::units_fault(v.form, &v.units[..v.count])?;
    if measures::widths_allowed(v) {
        Ok(())
    } else {
        Err(Fault::Width)
    }
}

// A count in a range; a caller's count may be any.
fn is_within_count(range: Range, count: usize) -> bool
    ensures { result ≡ within range count }
{
    u32::try_from(count).is_ok_and(|n| number::is_within(range, n))
}

// The first fault of a job in the order of its fields.
pub fn judge(j: Job) -> Result<(), Fault>
    ensures { fault_number result ≡ judge_of j }
{
    vehicle_fault(j.vehicle)?;
    if !start_allowed(j.start) {
        return Err(Fault::Start);
    }
    if !number::is_within(STEP, j.step) {
        return Err(Fault::Step);
    }
    if !is_within_count(ELEMENT_COUNT, j.count) {
        return Err(Fault::Element);
    }
    rows::elements_fault(&j.elements[..j.count], j.step)
}
