// Where the points of a rig are, and how far places lie apart.
ghost use Rattle.std.specs.Prelude.{true, ◌≡◌, IfSome};
ghost use Rattle.plane.specs.Vector.{minus, norm_sq};
ghost use Rattle.points.specs.Requires.{PlaceSized};

use path::{Path, Station};
use plane::Vec2;
use walk::Walk;

// Whether a place lies where a station may, so that it can be measured from.
pub fn is_on_map(v: Vec2) -> bool
    ensures { result ≡ true → PlaceSized 150000000 v }
{
    let heading = Vec2 { x: 1000000, y: 0 };
    walk::tests::station_sound(Station {
        position: v,
        heading,
    })
}

// The squared distance of two places, where both are on the map.
pub fn square_between(a: Vec2, b: Vec2) -> Option<i64>
    ensures { IfSome result (λ n. n ≡ norm_sq (minus a b)) }
{
    if !is_on_map(a) || !is_on_map(b) {
        return None;
    }
    let d = plane::minus(a, b);
    Some(plane::dot(d, d))
}

// The rig's points at the station reached, where path and record pass their tests.
pub fn points_at(w: Walk, asked: usize, path: Path<'_>) -> Option<[Vec2; marks::POINT_CAPACITY]> {
    if !walk::tests::path_lent(asked, path) {
        return None;
    }
    if !walk::tests::path_sound(asked, path) {
        return None;
    }
    if !walk::tests::record_sound(asked, w) {
        return None;
    }
    let here = walk::tests::station_at(path, w.station);
    Some(points::points(w.vehicle, w.d, here.position))
}
