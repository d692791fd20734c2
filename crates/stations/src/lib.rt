// Placing a walk and stepping it, with what the stations keep of it.
#![tactic(auto)]

ghost use Rattle.std.specs.Prelude.{◌≡◌, ◌+◌, length};
ghost use Rattle.refusal.specs.Numbers.{fault_number};
ghost use Rattle.path.specs.Lent.{path_of};
ghost use Rattle.walk.specs.Drawn.{view, station_at, outcome_of};
ghost use Rattle.walk.specs.TestRequires.{StationLent};
ghost use Rattle.points.specs.Points.{rig_points};
ghost use Rattle.reaches.specs.Crossing.{crossed};
ghost use Rattle.reaches.specs.Lent.{room_reaches, SameLoans};
ghost use Rattle.stations.specs.Placing.{call_of, as_placed, PlaceEnsures};
ghost use Rattle.stations.specs.Stepping.{StepEnsures};
ghost use Rattle.stations.specs.Inner.{call_refusal, vehicle_refusal, record_refusal, Enterable, Open};

use job::Vehicle;
use path::{Path, Station};
use plane::Vec2;
use reaches::ReachRoom;
use refusal::Fault;
use walk::{StepRefusal, Walk};

// 21, then 26.
fn call_tested(asked: usize, path: Path, room: &ReachRoom) -> Result<(), Fault>
    ensures { fault_number result ≡ call_refusal (call_of asked (path_of path.entry) (room_reaches room.now)) }
{
    let lent = walk::tests::path_lent(asked, path)
        & walk::tests::reaches_lent(asked, room.left.len(), room.right.len(), room.marks.len());
    if !lent {
        return Err(Fault::RunTooShort);
    }
    if !walk::tests::path_sound(asked, path) {
        return Err(Fault::PathUnsound);
    }
    Ok(())
}

// 27, of a placement.
fn vehicle_tested(v: Vehicle) -> Result<(), Fault>
    ensures { fault_number result ≡ vehicle_refusal v }
{
    if walk::tests::vehicle_sound(v) {
        return Ok(());
    }
    Err(Fault::RecordUnsound)
}

// 27, then 25.
fn record_tested(asked: usize, w: Walk) -> Result<(), Fault>
    ensures { fault_number result ≡ record_refusal asked (view w) }
{
    if !walk::tests::record_sound(asked, w) {
        return Err(Fault::RecordUnsound);
    }
    if walk::tests::at_last(asked, w.station) {
        return Err(Fault::LastStation);
    }
    Ok(())
}

// A vehicle placed at station 0, every station of the path cleared; or a refusal, and nothing changed.
pub fn place(
    v: Vehicle,
    w: &mut Walk,
    asked: usize,
    path: Path,
    room: &mut ReachRoom,
) -> Result<(), Fault>
    ensures loans { SameLoans room.old room.new }
    ensures placed { PlaceEnsures v w.old
        (call_of asked (path_of path.entry) (room_reaches room.old))
        (room_reaches room.old)
        (record { answer = as_placed result; walk = w.new })
        (room_reaches room.new) }
{
    call_tested(asked, path, room)?;
    vehicle_tested(v)?;
    let start = walk::tests::station_at(path, 0);
    room.clear(asked);
    *w = walk::moving::start(v, start.heading);
    Ok(())
}

// The crossings of the points that move from one state of the rig to the next, entered at every station of the path.
fn enter(
    before: Walk,
    after: Walk,
    old: Vec2,
    new: Vec2,
    asked: usize,
    path: Path,
    room: &mut ReachRoom,
)
    requires { Enterable before after old new (call_of asked (path_of path) (room_reaches room.old)) }
    ensures loans { SameLoans room.old room.new }
    ensures entered { room_reaches room.new
        ≡ crossed asked (path_of path.entry) (rig_points before.vehicle before.d old) (rig_points after.vehicle after.d new) (room_reaches room.old) }
{
    let count = marks::point_count(before.vehicle);
    let olds = points::points(before.vehicle, before.d, old);
    let news = points::points(after.vehicle, after.d, new);
    room.cross(asked, path, &olds[..count], &news[..count]);
}

// The stations that a step goes from and to. The record comes by value, so that the caller knows how long its arrays are.
fn step_stations(w: Walk, path: Path) -> (Station, Station)
    requires here { StationLent w.station (path_of path) }
    requires next { StationLent (w.station + 1) (path_of path) }
    ensures from { result.0 ≡ station_at (path_of path.entry) w.station }
    ensures to { result.1 ≡ station_at (path_of path.entry) (w.station + 1) }
    ensures places { length w.vehicle.units ≡ 4 }
    ensures vectors { length w.d ≡ 4 }
{
    (
        walk::tests::station_at(path, w.station),
        walk::tests::station_at(path, w.station + 1),
    )
}

// A step that no test before 22 refuses.
pub fn advance_and_enter(
    w: &mut Walk,
    asked: usize,
    path: Path,
    room: &mut ReachRoom,
) -> Result<(), StepRefusal>
    requires { Open (view w.old) (call_of asked (path_of path) (room_reaches room.old)) }
    ensures loans { SameLoans room.old room.new }
    ensures stepped { StepEnsures w.old
        (call_of asked (path_of path.entry) (room_reaches room.old))
        (room_reaches room.old)
        (record { answer = outcome_of result; walk = w.new })
        (room_reaches room.new) }
{
    let before = *w;
    let (from, to) = step_stations(before, path);
    walk::moving::advance(w, from.position, to.position)?;
    enter(before, *w, from.position, to.position, asked, path, room);
    Ok(())
}

// A step of a walk to the next station, its points' crossings entered; or a refusal, and nothing changed.
pub fn step(w: &mut Walk, asked: usize, path: Path, room: &mut ReachRoom) -> Result<(), StepRefusal>
    ensures loans { SameLoans room.old room.new }
    ensures stepped { StepEnsures w.old
        (call_of asked (path_of path.entry) (room_reaches room.old))
        (room_reaches room.old)
        (record { answer = outcome_of result; walk = w.new })
        (room_reaches room.new) }
{
    if let Err(fault) = call_tested(asked, path, room) {
        return Err(StepRefusal::Call(fault));
    }
    if let Err(fault) = record_tested(asked, *w) {
        return Err(StepRefusal::Call(fault));
    }
    advance_and_enter(w, asked, path, room)
}
