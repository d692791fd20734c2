// A whole job: its path laid, its vehicle placed and stepped to the last station.
#![tactic(auto)]

ghost use Rattle.std.specs.Prelude.{◌≡◌};
ghost use Rattle.path.specs.Lent.{path_of, room_runs, SameLoans as SamePathLoans};
ghost use Rattle.walk.specs.Drawn.{view, outcome_of};
ghost use Rattle.reaches.specs.Lent.{room_reaches, reached_of, SameLoans};
ghost use Rattle.stations.specs.Placing.{call_of};
ghost use Rattle.run.specs.Walking.{course_of, walk_to_end, Going};
ghost use Rattle.run.specs.Run.{finish_at, OverEnsures, Runnable, Tellable, RunEnsures};
ghost use Rattle.run.specs.Ran.{as_ran};
ghost use Rattle.run.specs.Stops.{stop_at};

use job::{Job, Vehicle};
use path::{Path, PathRoom};
use plane::Vec2;
use reaches::{Place, ReachRoom, Reached};
use refusal::Fault;
use walk::{StepRefusal, Walk};

// A walk that came to the last station: the steps, the widest place if a station is complete, and the last front point.
#[derive(Clone, Copy)]
pub struct Finish {
    pub steps: usize,
    pub widest: Option<Place>,
    pub front: Vec2,
}

// A step that was refused: why, at which unit, and which step, both counted from 1; unit 0 where the refusal names none.
#[derive(Clone, Copy, PartialEq, Eq)]
pub struct Stop {
    pub fault: Fault,
    pub unit: usize,
    pub step: usize,
}

// Stopped at a step; or refused before any step.
// Kept: the new form is no plainer: this is the error of a Result already, and its two kinds hold different values.
#[derive(Clone, Copy, PartialEq, Eq)]
pub enum RunRefusal {
    Stopped(Stop),
    Refused(Fault),
}

// The step of that number is refused.
pub fn stop_at(refusal: StepRefusal, step: usize) -> Stop
    ensures { result ≡ stop_at refusal step }
{
    match refusal {
        StepRefusal::Call(fault) => Stop {
            fault,
            unit: 0,
            step,
        },
        StepRefusal::Unit(at) => Stop {
            fault: at.fault,
            unit: at.unit,
            step,
        },
    }
}

// The walk goes on to the last station, or up to a step that is refused. Its path and its record were tested once and stay sound.
fn walk_on(w: &mut Walk, asked: usize, path: Path, room: &mut ReachRoom) -> Result<(), StepRefusal>
    requires { Going (view w.old) (call_of asked (path_of path) (room_reaches room.old)) }
    ensures loans { SameLoans room.old room.new }
    ensures walked { course_of (record { answer = outcome_of result; walk = w.new }) (room_reaches room.new)
        ≡ walk_to_end asked (path_of path.entry) (view w.old) (room_reaches room.old) }
{
    for _ in w.station + 1..asked {
        stations::advance_and_enter(w, asked, path, room)?;
    }
    Ok(())
}

// The walk at its last station: its steps, the widest place and the front point there.
fn finished(v: Vehicle, station: usize, asked: usize, path: Path, runs: Reached) -> Finish
    requires { Tellable v station (call_of asked (path_of path) (reached_of runs)) }
    ensures { result ≡ finish_at v station asked (path_of path.entry) (reached_of runs.entry) }
{
    Finish {
        steps: station,
        widest: reaches::widest_among(marks::point_count(v), asked, runs),
        front: walk::tests::station_at(path, station).position,
    }
}

// A vehicle is placed on a laid path and stepped to its end. The path is not tested again.
pub fn run_over(
    v: Vehicle,
    asked: usize,
    path: Path,
    room: &mut ReachRoom,
) -> Result<Finish, RunRefusal>
    requires { Runnable v (call_of asked (path_of path) (room_reaches room.old)) }
    ensures loans { SameLoans room.old room.new }
    ensures ran { OverEnsures asked (path_of path.entry) v
        (room_reaches room.old)
        (as_ran result)
        (room_reaches room.new) }
{
    let start = walk::tests::station_at(path, 0);
    room.clear(asked);
    let mut w = walk::moving::start(v, start.heading);
    match walk_on(&mut w, asked, path, room) {
        Ok(()) => Ok(finished(w.vehicle, w.station, asked, path, room.reached())),
        Err(refusal) => Err(RunRefusal::Stopped(stop_at(refusal, w.station + 1))),
    }
}

// A whole job on seven lent runs; refused before any step, nothing is written.
pub fn run(j: Job, path_room: &mut PathRoom, room: &mut ReachRoom) -> Result<Finish, RunRefusal>
    ensures path_loans { SamePathLoans path_room.old path_room.new }
    ensures loans { SameLoans room.old room.new }
    ensures ran { RunEnsures j
        (room_runs path_room.old)
        (room_reaches room.old)
        (as_ran result)
        (room_runs path_room.new)
        (room_reaches room.new) }
{
    if let Err(fault) = job::judge(j) {
        return Err(RunRefusal::Refused(fault));
    }
    let stations = path::step_count(&j.elements[..j.count], j.step) + 1;
    if !walk::tests::reaches_lent(
        stations,
        room.left.len(),
        room.right.len(),
        room.marks.len(),
    ) {
        return Err(RunRefusal::Refused(Fault::RunTooShort));
    }
    match path::lay(j, path_room) {
        Ok(asked) => run_over(j.vehicle, asked, path_room.laid(), room),
        Err(fault) => Err(RunRefusal::Refused(fault)),
    }
}
