// The tests of a walk.
ghost use Rattle.std.specs.Prelude.{◌≡◌, ◌+◌, leb, drop};
ghost use Rattle.path.specs.Lent.{path_of};
ghost use Rattle.walk.specs.Drawn.{view, station_at};
ghost use Rattle.walk.specs.Tests.{path_lent, reaches_lent, station_sound, path_sound, vehicle_sound, is_zero, vector_sound, vectors_sound, units_in_use, record_sound};
ghost use Rattle.walk.specs.TestRequires.{StationLent, PathLent, VehicleTested};

use crate::Walk;
use job::Vehicle;
use path::{Path, Station};
use plane::Vec2;

// 21 for the path: the stations asked for are from 1 to 2,001, and each of its four runs has as many.
pub fn path_lent(asked: usize, path: Path) -> bool
    ensures { result ≡ path_lent asked (path_of path.entry) }
{
    ((1 <= asked) & (asked <= 2001))
        & ((asked <= path.xs.len())
            & ((asked <= path.ys.len()) & ((asked <= path.gxs.len()) & (asked <= path.gys.len()))))
}

// 21 for the other three runs, by their lengths.
// Kept: the new form is no plainer: each caller would build a struct of the three lengths for this one call.
pub fn reaches_lent(asked: usize, left: usize, right: usize, marks: usize) -> bool
    ensures { result ≡ reaches_lent asked (record { left = left; right = right; marks = marks }) }
{
    (asked <= left) & ((asked <= right) & (asked <= marks))
}

// Station i of a path.
pub fn station_at(path: Path, i: usize) -> Station
    requires { StationLent i (path_of path) }
    ensures { result ≡ station_at (path_of path.entry) i }
{
    Station {
        position: Vec2 {
            x: i64::from(path.xs[i]),
            y: i64::from(path.ys[i]),
        },
        heading: Vec2 {
            x: i64::from(path.gxs[i]),
            y: i64::from(path.gys[i]),
        },
    }
}

#[tactic(auto, using(crate::proofs::PathTests::sound_by_box))]
pub fn station_sound(s: Station) -> bool
    ensures { result ≡ station_sound s }
{
    plane::in_box(s.position, 150000000) && plane::has_length(s.heading, 1000000)
}

// 26: every station asked for is sound.
pub fn path_sound(asked: usize, path: Path) -> bool
    requires { PathLent asked (path_of path) }
    ensures { result ≡ path_sound asked (path_of path.entry) }
{
    (0..asked).all(|i| station_sound(station_at(path, i)))
}

#[tactic(auto, using(job::proofs::FaultLaws::ok_by_number), unfolding(crate::specs::Tests::vehicle_sound))]
pub fn vehicle_sound(v: Vehicle) -> bool
    ensures { result ≡ vehicle_sound v }
{
    job::vehicle_fault(v).is_ok()
}

fn is_zero(d: Vec2) -> bool
    ensures { result ≡ is_zero d }
{
    d == Vec2 { x: 0, y: 0 }
}

// The vector at place k: that of a unit in use has its length, any other is zero.
fn vector_sound(v: Vehicle, k: usize, d: Vec2) -> bool
    requires { VehicleTested v }
    ensures { result ≡ vector_sound (drop k (units_in_use v)) d }
{
    if k < v.count {
        return plane::has_length(d, i64::from(v.units[k].wheelbase));
    }
    is_zero(d)
}

fn vectors_sound(v: Vehicle, d: [Vec2; 4]) -> bool
    requires { VehicleTested v }
    ensures { result ≡ vectors_sound (units_in_use v) d }
{
    d.iter().enumerate().all(|(k, x)| vector_sound(v, k, *x))
}

// 27: any record is tested; its vectors only where the vehicle is sound.
#[tactic(auto, unfolding(crate::specs::Tests::record_sound))]
pub fn record_sound(asked: usize, w: Walk) -> bool
    ensures { result ≡ record_sound asked (view w) }
{
    let v = w.vehicle;
    if !vehicle_sound(v) {
        return false;
    }
    (w.station < asked) & vectors_sound(v, w.d)
}

// 25: no station follows this one; no sum, which might overflow, is made.
pub fn at_last(asked: usize, station: usize) -> bool
    ensures { result ≡ leb asked (station + 1) }
{
    asked.saturating_sub(1) <= station
}
