// The units of a rig, drawn one after the other.
ghost use Rattle.std.specs.Prelude.{◌≡◌};
ghost use Rattle.refusal.specs.Numbers.{as_answer};
ghost use Rattle.walk.specs.Tests.{units_in_use};
ghost use Rattle.walk.specs.Units.{hitch_at, fold_kept, none, behind, turn_units};
ghost use Rattle.walk.specs.Inner.{next_turn, ahead_of, as_turning, TurnReady, HitchReady, FoldReady, UnitsReady};

use crate::UnitRefusal;
use job::{Unit, Vehicle};
use plane::Vec2;
use refusal::Fault;

// A unit that has turned, with its new vector: the one ahead of the next.
#[derive(Clone, Copy)]
struct Lead {
    pub unit: Unit,
    pub d: Vec2,
}

// The hitch of a unit whose front point lies at `front`.
pub fn hitch_at(u: Unit, front: Vec2, d: Vec2) -> Vec2
    requires { HitchReady u front d }
    ensures { result ≡ hitch_at u front d }
{
    let l = i64::from(u.wheelbase);
    let h = i64::from(u.hitch);
    let rear = plane::minus(front, d);
    plane::plus(rear, unit::hitch_offset(d, h, l))
}

// Whether the unit u at d may stand so behind the one ahead of it.
fn fold_kept(ahead: Lead, u: Unit, d: Vec2) -> bool
    requires { FoldReady ahead.unit ahead.d u d }
    ensures { result ≡ fold_kept (behind ahead.unit ahead.d) u d }
{
    let limit = i64::from(u.fold);
    let la = i64::from(ahead.unit.wheelbase);
    let ld = i64::from(u.wheelbase);
    unit::fold_allowed(ahead.d, d, limit, la, ld)
}

// One unit's turn, its front point going from old to new.
fn turn_next(u: Unit, d: Vec2, old: Vec2, new: Vec2, ahead: Option<Lead>) -> Result<Vec2, Fault>
    requires { TurnReady (ahead_of ahead) u d old new }
    ensures { as_answer result ≡ next_turn (ahead_of ahead) u d old new }
{
    let l = i64::from(u.wheelbase);
    let f = plane::minus(new, old);
    if unit::moves_too_far(f, l) {
        return Err(Fault::MoveTooLong);
    }
    let t = unit::turned(d, f, l);
    if let Some(lead) = ahead {
        if !fold_kept(lead, u, t) {
            return Err(Fault::FoldLimit);
        }
    }
    Ok(t)
}

// The units in use, turned from the first, whose front point goes from old to new; the first that may not turn refuses.
pub(crate) fn turn_units(
    v: Vehicle,
    d: [Vec2; 4],
    old: Vec2,
    new: Vec2,
) -> Result<[Vec2; 4], UnitRefusal>
    requires { UnitsReady v d old new }
    ensures { as_turning result ≡ turn_units 1 none (units_in_use v) d old new }
{
    let mut turned = d;
    let mut from = old;
    let mut to = new;
    let mut ahead = None;
    for i in 0..v.count {
        let u = v.units[i];
        match turn_next(u, d[i], from, to, ahead) {
            Err(fault) => return Err(UnitRefusal { fault, unit: i + 1 }),
            Ok(x) => {
                from = hitch_at(u, from, d[i]);
                to = hitch_at(u, to, x);
                turned[i] = x;
                ahead = Some(Lead { unit: u, d: x });
            }
        }
    }
    Ok(turned)
}
