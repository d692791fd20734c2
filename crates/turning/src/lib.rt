// The turning check for programs in C and Rust: numbers and slices in, a number back, and an answer in a lent run.
#![tactic(auto)]

pub mod kerbs;
pub mod settings;

ghost use Rattle.heading.specs.PathTurn.{path_turn};
ghost use Rattle.unit.specs.Turn.{unit_turn};
ghost use Rattle.path.specs.Laying.{path_runs};
ghost use Rattle.reaches.specs.Cells.{reach_runs};
ghost use Rattle.answer_run.specs.Answers.{Answered};
ghost use Rattle.answer_run.specs.Turns.{path_told, unit_told};
ghost use Rattle.turning.specs.Calls.{SweepCalled, RunCalled};
ghost use Rattle.turning.specs.Claims.{RefusalWritesNothing};

use path::PathRoom;
use reaches::ReachRoom;

// How many entries the answer run of a job must have.
const SWEEP_ENTRIES: usize = 8;

// One job, from its bytes: 0 where its walk is finished, else the refusal's number with the byte, or with the unit and the step.
#[unsafe(no_mangle)]
pub extern "C" fn turning_sweep(job: &[u8], answer: &mut [i64]) -> u32
    ensures { SweepCalled job.now answer.old result answer.new }
{
    if answer.len() < SWEEP_ENTRIES {
        return answer_run::too_short();
    }
    entries::tell_sweep(swept::sweep_job(job), answer)
}

// The same on the caller's seven runs, which are left as the steps made left them; a refused job, or a run too short, writes nothing.
// Kept: the C interface needs it: it hands over each run by itself, as an address and a length.
#[unsafe(no_mangle)]
pub extern "C" fn turning_run(
    job: &[u8],
    xs: &mut [i32],
    ys: &mut [i32],
    gxs: &mut [i32],
    gys: &mut [i32],
    left: &mut [i32],
    right: &mut [i32],
    marks: &mut [marks::Mark],
    answer: &mut [i64],
) -> u32
    ensures { RunCalled job.now
        (path_runs xs.old ys.old gxs.old gys.old)
        (reach_runs left.old right.old marks.old)
        answer.old
        result
        (path_runs xs.new ys.new gxs.new gys.new)
        (reach_runs left.new right.new marks.new)
        answer.new }
{
    if answer.len() < SWEEP_ENTRIES {
        return answer_run::too_short();
    }
    let mut path_room = PathRoom { xs, ys, gxs, gys };
    let mut room = ReachRoom { left, right, marks };
    entries::tell_sweep(swept::sweep_into(job, &mut path_room, &mut room), answer)
}

// The path turn by itself: 0 with the new heading and the move, or 21, 6, 7 or 8.
// Kept: two numbers for the heading, as the C interface needs it: it hands over each coordinate by itself.
#[unsafe(no_mangle)]
pub extern "C" fn turning_path_turn(gx: i64, gy: i64, s: u32, r: i32, answer: &mut [i64]) -> u32
    ensures { Answered 4 (path_told (path_turn (record { x = gx; y = gy }) s r)) answer.old result answer.new }
{
    answer_run::turns::path_turn(gx, gy, s, r, answer)
}

// The turn of a single unit: 0 with its new vector, or 21, 27 or 22.
#[unsafe(no_mangle)]
pub extern "C" fn turning_unit_turn(
    dx: i64,
    dy: i64,
    fx: i64,
    fy: i64,
    wheelbase: u32,
    answer: &mut [i64],
) -> u32
    ensures { Answered 2 (unit_told (unit_turn (record { x = dx; y = dy }) (record { x = fx; y = fy }) wheelbase)) answer.old result answer.new }
{
    answer_run::turns::unit_turn(dx, dy, fx, fy, wheelbase, answer)
}

// Claim: a call that refuses leaves its answer run as it was, and the other runs lent to it too, unless it refuses by 22, 23 or 30, which it finds by walking.
#[tactic(auto, using(crate::proofs::ClaimLaws::writes_nothing))]
pub fn refusal_writes_nothing()
    ensures { RefusalWritesNothing }
{}
