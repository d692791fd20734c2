// From a job's bytes to the answer that is printed.
#![tactic(auto)]

ghost use Rattle.std.specs.Prelude.{◌≡◌, Err};
ghost use Rattle.path.specs.Lent.{room_runs, SameLoans as SamePathLoans};
ghost use Rattle.reaches.specs.Lent.{room_reaches, SameLoans};
ghost use Rattle.run.specs.Ran.{as_ran};
ghost use Rattle.swept.specs.Answers.{told_refusal, as_swept};
ghost use Rattle.swept.specs.Swept.{swept_run};
ghost use Rattle.swept.specs.Ranges.{IntoEnsures, SweptEnsures};
ghost use Rattle.swept.specs.Claims.{FirstBytes};

use path::PathRoom;
use reaches::ReachRoom;
use refusal::Refusal;
use run::{Finish, RunRefusal, Stop};
use told::Tell;

// Stopped at a step; or refused, with the byte where the field starts (0 beside 21).
// Kept: the new form is no plainer: this is the error of a Result already, and either of the two is a refusal.
#[derive(Clone, Copy, PartialEq, Eq)]
pub enum SweepRefusal {
    Stopped(Stop),
    Refused(Refusal),
}

// The same by any number: with the unit and the step, or with the byte.
// Kept: people are told a refusal by its number, and callers may tell one that no fault has.
#[derive(Clone, Copy, PartialEq, Eq)]
pub enum SweepTold {
    Stopped(u8, usize, usize),
    Refused(u8, usize),
}

impl Tell<SweepTold> for SweepRefusal {
    ghost told = { told_refusal };

    fn tell(self) -> SweepTold {
        match self {
            SweepRefusal::Stopped(stop) => {
                SweepTold::Stopped(stop.fault.number(), stop.unit, stop.step)
            }
            SweepRefusal::Refused(refused) => {
                SweepTold::Refused(refused.fault.number(), refused.place)
            }
        }
    }
}

// What refused the run of an accepted job; 21 names no byte.
pub fn run_refused(refusal: RunRefusal) -> SweepRefusal
    ensures { as_swept (Err result) ≡ swept_run (as_ran (Err refusal)) }
{
    match refusal {
        RunRefusal::Stopped(stop) => SweepRefusal::Stopped(stop),
        RunRefusal::Refused(fault) => SweepRefusal::Refused(fault.at(0)),
    }
}

// The job is read and run on seven lent runs. A refusal, the reader's or 21, writes nothing; the steps that a stopped walk made stay.
pub fn sweep_into(
    bytes: &[u8],
    path_room: &mut PathRoom,
    room: &mut ReachRoom,
) -> Result<Finish, SweepRefusal>
    ensures path_loans { SamePathLoans path_room.old path_room.new }
    ensures loans { SameLoans room.old room.new }
    ensures swept { IntoEnsures bytes.now
        (room_runs path_room.old)
        (room_reaches room.old)
        (as_swept result)
        (room_runs path_room.new)
        (room_reaches room.new) }
{
    match job_reader::read_job(bytes) {
        Ok(job) => run::run(job, path_room, room).map_err(run_refused),
        Err(refusal) => Err(SweepRefusal::Refused(refusal)),
    }
}

// The same on seven runs of its own, with room for any path, so that 21 never answers.
pub fn sweep_job(bytes: &[u8]) -> Result<Finish, SweepRefusal>
    ensures { SweptEnsures bytes.now (as_swept result) }
{
    let mut path_room = PathRoom {
        xs: &mut [0i32; 2001],
        ys: &mut [0i32; 2001],
        gxs: &mut [0i32; 2001],
        gys: &mut [0i32; 2001],
    };
    let mut room = ReachRoom {
        left: &mut [0i32; 2001],
        right: &mut [0i32; 2001],
        marks: &mut [0u32; 2001],
    };
    sweep_into(bytes, &mut path_room, &mut room)
}

// Claim: of a longer input the first 1,024 bytes decide the answer.
pub fn first_bytes()
    ensures { FirstBytes }
{}
