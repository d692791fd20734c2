// The record of a walk, at the start and from step to step. Nothing here writes a run.
ghost use Rattle.std.specs.Prelude.{◌≡◌};
ghost use Rattle.walk.specs.Drawn.{view, outcome_of};
ghost use Rattle.walk.specs.Rig.{start_vectors, drawn_start};
ghost use Rattle.walk.specs.Moving.{AdvanceEnsures, AdvanceReady, StartReady};

use crate::{StepRefusal, Walk};
use job::Vehicle;
use plane::Vec2;

// The vectors of the units in use along the heading g; the others are zero.
fn start_vectors(v: Vehicle, g: Vec2) -> [Vec2; 4]
    requires { StartReady v g }
    ensures { result ≡ start_vectors v g }
{
    let mut d = [Vec2 { x: 0, y: 0 }; 4];
    for (i, u) in v.units[..v.count].iter().enumerate() {
        d[i] = unit::placed(g, i64::from(u.wheelbase));
    }
    d
}

// The record of a vehicle placed at station 0 of a path whose heading there is g.
pub fn start(v: Vehicle, g: Vec2) -> Walk
    requires { StartReady v g }
    ensures { view result ≡ drawn_start v g }
{
    Walk {
        vehicle: v,
        station: 0,
        d: start_vectors(v, g),
    }
}

// A step of the rig whose first front point goes from old to new; refused, it leaves the record as it was.
pub fn advance(w: &mut Walk, old: Vec2, new: Vec2) -> Result<(), StepRefusal>
    requires { AdvanceReady w.old old new }
    ensures { AdvanceEnsures w.old old new (record { answer = outcome_of result; walk = w.new }) }
{
    match crate::units::turn_units(w.vehicle, w.d, old, new) {
        Ok(turned) => {
            w.station += 1;
            w.d = turned;
            Ok(())
        }
        Err(refusal) => Err(StepRefusal::Unit(refusal)),
    }
}
