// The walk of a rig along a path: its record, its tests and its step, writing no run.
#![tactic(auto)]

ghost use Rattle.walk.specs.Rigid.{StepRule};
ghost use Rattle.walk.specs.Hitches.{HitchPlace};

use job::Vehicle;
use plane::Vec2;
use refusal::Fault;

pub mod moving;
pub mod tests;
pub mod units;

// How far a rig has come: its vehicle, the station reached, and a vector for each unit from rear axle to front point.
#[derive(Clone, Copy, PartialEq, Eq)]
pub struct Walk {
    pub vehicle: Vehicle,
    pub station: usize,
    pub d: [Vec2; 4],
}

// A unit, counted from 1, that may not turn, and why.
#[derive(Clone, Copy, PartialEq, Eq)]
pub struct UnitRefusal {
    pub fault: Fault,
    pub unit: usize,
}

// Why a step is refused: for the call as a whole, or at a unit.
#[derive(Clone, Copy, PartialEq, Eq)]
pub enum StepRefusal {
    Call(Fault),
    Unit(UnitRefusal),
}

// Claim: the vectors of a placement have their lengths, a call of the drawn rig keeps them, and a made step stays near the rigid unit.
pub fn step_rule()
    ensures { StepRule }
{}

// Claim: a hitch lies at the front point, at the rear axle or as far behind it, as its distance says.
pub fn hitch_place()
    ensures { HitchPlace }
{}
