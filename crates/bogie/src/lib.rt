// A sliding bogie: one job walked at each setting of its last wheelbase, and the best three settings listed.
#![tactic(auto)]

ghost use Rattle.std.specs.Prelude.{◌≡◌};
ghost use Rattle.refusal.specs.Numbers.{fault_number};
ghost use Rattle.path.specs.Lent.{path_of, room_runs, SameLoans as SamePathLoans};
ghost use Rattle.reaches.specs.Lent.{room_reaches, SameLoans};
ghost use Rattle.run.specs.Ran.{as_ran};
ghost use Rattle.ranking.specs.Ranking.{as_listed, so_far};
ghost use Rattle.stations.specs.Placing.{call_of};
ghost use Rattle.bogie.specs.Settings.{rail_allowed, vehicle_set};
ghost use Rattle.bogie.specs.Fitting.{run_entered};
ghost use Rattle.bogie.specs.List.{list_refusal, ListEnsures};
ghost use Rattle.bogie.specs.Best.{BestSettings};
ghost use Rattle.bogie.specs.Worked.{WorkedLists};
ghost use Rattle.bogie.specs.Walks.{LastUnit, Walkable, WalkEnsures};

use job::{Job, Unit, Vehicle};
use path::{Path, PathRoom};
use ranking::{Setting, Shortlist};
use reaches::ReachRoom;
use refusal::Fault;
use run::{Finish, RunRefusal};

// The settings of a sliding bogie: the lowest last wheelbase, what each next one adds, and how many there are.
#[derive(Clone, Copy, PartialEq, Eq)]
pub struct Rail {
    pub lowest: u32,
    pub pitch: u32,
    pub number: u32,
}

impl Rail {
    // The limits: as settings only grow, the first and the last tell of all.
    fn allowed(self) -> bool
        ensures { result ≡ rail_allowed self }
    {
        if (self.pitch == 0) | (self.number == 0) | (32 < self.number) {
            return false;
        }
        let last = u64::from(self.lowest) + u64::from(self.number - 1) * u64::from(self.pitch);
        (5000 <= self.lowest) & (last <= 200000)
    }
}

// A setting is listed where its walk came to the last station with a complete station.
fn enter_run(
    wheelbase: u32,
    ran: Result<Finish, RunRefusal>,
    l: Option<Shortlist>,
) -> Option<Shortlist>
    ensures { so_far result ≡ run_entered wheelbase (as_ran ran) (so_far l) }
{
    let Ok(finish) = ran else {
        return l;
    };
    let Some(place) = finish.widest else {
        return l;
    };
    let width = place.width;
    Some(ranking::enter(Setting { wheelbase, width }, l))
}

// The vehicle with its last wheelbase replaced.
fn vehicle_set(v: Vehicle, wheelbase: u32) -> Vehicle
    requires { LastUnit v }
    ensures { result ≡ vehicle_set v wheelbase }
{
    let last = v.count - 1;
    let mut set = v;
    set.units[last] = Unit {
        wheelbase,
        ..v.units[last]
    };
    set
}

// Every setting is walked over the same laid path, from a new placement each.
fn walk_settings(
    v: Vehicle,
    rail: Rail,
    asked: usize,
    path: Path,
    room: &mut ReachRoom,
) -> Result<Shortlist, Fault>
    requires { Walkable v rail (call_of asked (path_of path) (room_reaches room.old)) }
    ensures loans { SameLoans room.old room.new }
    ensures listed { WalkEnsures asked (path_of path.entry) v rail
        (room_reaches room.old)
        (as_listed result)
        (room_reaches room.new) }
{
    let mut listed = None;
    for i in 0..rail.number {
        let wheelbase = rail.lowest + i * rail.pitch;
        let ran = run::run_over(vehicle_set(v, wheelbase), asked, path, room);
        listed = enter_run(wheelbase, ran, listed);
    }
    listed.ok_or(Fault::NoneListed)
}

// What refuses before any walk: the job's own faults, 21 on all seven runs, then 29.
fn list_tested(j: Job, rail: Rail, path_room: &PathRoom, room: &ReachRoom) -> Result<(), Fault>
    ensures { fault_number result ≡ list_refusal j rail (room_runs path_room.now) (room_reaches room.now) }
{
    job::judge(j)?;
    let stations = path::step_count(&j.elements[..j.count], j.step) + 1;
    let lent = walk::tests::path_lent(stations, path_room.laid())
        & walk::tests::reaches_lent(
            stations,
            room.left.len(),
            room.right.len(),
            room.marks.len(),
        );
    if !lent {
        return Err(Fault::RunTooShort);
    }
    if !rail.allowed() {
        return Err(Fault::Rail);
    }
    Ok(())
}

// The best three settings of a job's last wheelbase, on seven lent runs. Refused by 3 to 9, 21 or 29 nothing is written;
// after that, 30 included, the runs hold the last setting's walk as far as it went.
pub fn list_settings(
    j: Job,
    rail: Rail,
    path_room: &mut PathRoom,
    room: &mut ReachRoom,
) -> Result<Shortlist, Fault>
    ensures path_loans { SamePathLoans path_room.old path_room.new }
    ensures loans { SameLoans room.old room.new }
    ensures listed { ListEnsures j rail
        (room_runs path_room.old)
        (room_reaches room.old)
        (as_listed result)
        (room_runs path_room.new)
        (room_reaches room.new) }
{
    list_tested(j, rail, path_room, room)?;
    let asked = path::lay(j, path_room)?;
    walk_settings(j.vehicle, rail, asked, path_room.laid(), room)
}

// Claim: the settings listed are the best of all that reach the last station with a complete station.
pub fn best_settings()
    ensures { BestSettings }
{}

// Claim: the lists of the worked job at some settings, by computing.
pub fn worked_lists()
    ensures { WorkedLists }
{}
