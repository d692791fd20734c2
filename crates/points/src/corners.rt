// The corners of a unit's body.
ghost use Rattle.std.specs.Prelude.{◌≡◌};
ghost use Rattle.points.specs.Corners.{body_of, front_corner, rear_corner, unit_of, is_front, corner_of};
ghost use Rattle.points.specs.Requires.{UnitInUse, BaseInUse};

use job::{Body, Form, Vehicle};
use point_table::Base;

// Where a corner lies: how far ahead of its base, negative behind, and how far beside it.
#[derive(Clone, Copy)]
pub struct Corner {
    pub along: i64,
    pub width: i64,
}

// The body of unit i: a short job's has no overhangs, and the rear half width.
#[tactic(auto, using(crate::proofs::CornerLaws::long_body), unfolding(crate::specs::Corners::body_of))]
fn body_of(v: Vehicle, i: usize) -> Body
    requires { UnitInUse v i }
    ensures { result ≡ body_of v i }
{
    match v.form {
        Form::Short => Body {
            front_overhang: 0,
            rear_overhang: 0,
            half_width: v.rear_half_width,
        },
        Form::Long => v.units[i].body,
    }
}

// A short job's first unit has its old overhang and half width in front.
#[tactic(auto, unfolding(crate::specs::Corners::front_corner))]
fn front_corner(v: Vehicle, i: usize) -> Corner
    requires { UnitInUse v i }
    ensures { result ≡ front_corner v i }
{
    if v.form == Form::Short && i == 0 {
        return Corner {
            along: i64::from(v.overhang),
            width: i64::from(v.front_half_width),
        };
    }
    let body = body_of(v, i);
    Corner {
        along: i64::from(body.front_overhang),
        width: i64::from(body.half_width),
    }
}

#[tactic(auto, unfolding(crate::specs::Corners::rear_corner))]
fn rear_corner(v: Vehicle, i: usize) -> Corner
    requires { UnitInUse v i }
    ensures { result ≡ rear_corner v i }
{
    let body = body_of(v, i);
    Corner {
        along: -i64::from(body.rear_overhang),
        width: i64::from(body.half_width),
    }
}

// The unit that a base belongs to.
pub(crate) fn unit_of(v: Vehicle, base: Base) -> usize
    requires { BaseInUse v base }
    ensures { result ≡ unit_of v base }
{
    match base {
        Base::Front(i) | Base::Rear(i) => i,
        Base::LastRear => v.count - 1,
    }
}

pub(crate) fn is_front(base: Base) -> bool
    ensures { result ≡ is_front base }
{
    matches!(base, Base::Front(_))
}

// The corner of the body at a base.
#[tactic(auto, unfolding(crate::specs::Corners::corner_of))]
pub(crate) fn corner_of(v: Vehicle, base: Base) -> Corner
    requires { BaseInUse v base }
    ensures { result ≡ corner_of v base }
{
    let i = unit_of(v, base);
    if is_front(base) {
        return front_corner(v, i);
    }
    rear_corner(v, i)
}
