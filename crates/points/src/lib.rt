// The points of a rig that are measured at the stations.
#![tactic(auto)]

mod corners;

ghost use Rattle.std.specs.Prelude.{◌≡◌};
ghost use Rattle.std.proofs.lemmas.List.Edits.{sets};
ghost use Rattle.exact.specs.Size.{Within};
ghost use Rattle.walk.specs.Inner.{HitchReady};
ghost use Rattle.points.specs.Ends.{place_of, no_places, places_of};
ghost use Rattle.points.specs.Points.{point_at, end_of, along_of, half_width, side_of, offset_from, no_points, rig_points};
ghost use Rattle.points.specs.Requires.{RigAt, BaseInUse, OffsetSized, Measured};
ghost use Rattle.points.specs.Worked.{WorkedPoints};

use crate::corners::Corner;
use job::{Side, Unit, Vehicle};
use plane::Vec2;
use point_table::{Along, Base, Row, Width};

// Where a unit stands: its front point and its rear axle, with its vector and its wheelbase.
#[derive(Clone, Copy)]
pub struct UnitPlace {
    pub front: Vec2,
    pub rear: Vec2,
    pub d: Vec2,
    pub wheelbase: i64,
}

// An end of a unit that points are measured from, with the vector and the wheelbase of the unit.
#[derive(Clone, Copy)]
pub struct End {
    pub place: Vec2,
    pub d: Vec2,
    pub wheelbase: i64,
}

// A unit that is not in use stands nowhere.
const NO_PLACE: UnitPlace = UnitPlace {
    front: Vec2 { x: 0, y: 0 },
    rear: Vec2 { x: 0, y: 0 },
    d: Vec2 { x: 0, y: 0 },
    wheelbase: 0,
};

// A unit whose front point lies at `front`.
fn place_of(u: Unit, d: Vec2, front: Vec2) -> UnitPlace
    requires { HitchReady u front d }
    ensures { result ≡ place_of u d front }
{
    UnitPlace {
        front,
        rear: plane::minus(front, d),
        d,
        wheelbase: i64::from(u.wheelbase),
    }
}

// The units in use, hitch by hitch from the front point of the first; the others are zero.
fn unit_places(v: Vehicle, d: [Vec2; 4], front: Vec2) -> [UnitPlace; 4]
    requires { RigAt v d front }
    ensures { result ≡ sets no_places 0 (places_of v d front) }
{
    let last = v.count - 1;
    let mut places = [NO_PLACE; 4];
    let mut here = front;
    for (i, u) in v.units[..last].iter().enumerate() {
        places[i] = place_of(*u, d[i], here);
        here = walk::units::hitch_at(*u, here, d[i]);
    }
    places[last] = place_of(v.units[last], d[last], here);
    places
}

// The end that a base names.
fn end_of(v: Vehicle, places: [UnitPlace; 4], base: Base) -> End
    requires { BaseInUse v base }
    ensures { result ≡ end_of v places base }
{
    let unit = places[corners::unit_of(v, base)];
    let place = if corners::is_front(base) {
        unit.front
    } else {
        unit.rear
    };
    End {
        place,
        d: unit.d,
        wheelbase: unit.wheelbase,
    }
}

fn along_of(c: Corner, along: Along) -> i64
    ensures { result ≡ along_of c along }
{
    match along {
        Along::Corner => c.along,
        Along::Nothing => 0,
    }
}

fn half_width(v: Vehicle, c: Corner, width: Width) -> i64
    ensures { result ≡ half_width v c width }
{
    match width {
        Width::Corner => c.width,
        Width::FrontHalf => i64::from(v.front_half_width),
        Width::RearHalf => i64::from(v.rear_half_width),
    }
}

// A half width, negative to the left.
fn side_of(side: Side, width: i64) -> i64
    requires { Within 20000 width }
    ensures { result ≡ side_of side width }
{
    match side {
        Side::Left => -width,
        Side::Right => width,
    }
}

// Where a point lies from its end.
fn offset_from(e: End, along: i64, side: i64) -> Vec2
    requires { OffsetSized e along side }
    ensures { result ≡ offset_from e along side }
{
    let d = e.d;
    let sum = Vec2 {
        x: d.x * along + d.y * side,
        y: d.y * along - d.x * side,
    };
    plane::nearest_vector(sum, e.wheelbase)
}

// The point that a row of the table places.
fn point(v: Vehicle, places: [UnitPlace; 4], row: Row) -> Vec2
    requires { Measured v places row }
    ensures { result ≡ point_at v places row }
{
    let e = end_of(v, places, row.base);
    let c = corners::corner_of(v, row.base);
    let ahead = along_of(c, row.along);
    let beside = side_of(row.side, half_width(v, c, row.width));
    plane::plus(e.place, offset_from(e, ahead, beside))
}

// The points of a rig whose first front point is `front`; the places past them are zero.
pub fn points(v: Vehicle, d: [Vec2; 4], front: Vec2) -> [Vec2; marks::POINT_CAPACITY]
    requires { RigAt v d front }
    ensures { result ≡ sets no_points 0 (rig_points v d front) }
{
    let places = unit_places(v, d, front);
    let mut all = [Vec2 { x: 0, y: 0 }; marks::POINT_CAPACITY];
    for (k, place) in all[..marks::point_count(v)].iter_mut().enumerate() {
        *place = point(v, places, point_table::row_of(k));
    }
    all
}

// Claim: the points of worked rigs, short and long, lie where the paper's table puts them.
pub fn worked_points()
    ensures { WorkedPoints }
{}
