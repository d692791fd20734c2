// Lays document 002's sample path, its half turn and the longest jobs, and checks where they end and what is refused.
#![tactic(auto)]

ghost use Rattle.std.specs.Prelude.{◌≡◌, ◌≤◌, IfOk};
ghost use Rattle.refusal.specs.Numbers.{as_answer};
ghost use Rattle.path.specs.Laying.{lay_answer};
ghost use Rattle.path.specs.Lent.{room_runs};
ghost use Rattle.path_trials.specs.Ends.{end_of, Measurable, BothMeasurable};

use job::{Curve, Element, Job, Side};
use path::PathRoom;
use plane::Vec2;
use refusal::Fault;
use trial_tools::rigs;

// The stations laid, and the place of the last.
#[derive(Clone, Copy)]
pub struct PathEnd {
    pub stations: usize,
    pub position: Vec2,
}

// A path is laid and its last station read back.
fn path_end(j: Job, room: &mut PathRoom) -> Result<PathEnd, Fault>
    ensures { as_answer result ≡ end_of j (lay_answer j (room_runs room.old)) }
{
    let stations = path::lay(j, room)?;
    let end = walk::tests::station_at(room.laid(), stations - 1);
    Ok(PathEnd {
        stations,
        position: end.position,
    })
}

// The least whole number whose square is at least n, and 1000 where that is more.
fn root_above(n: u64) -> u64 {
    let root = n.isqrt();
    let above = if root * root < n { root + 1 } else { root };
    above.min(1000)
}

// The distance of two places in ticks, rounded up, and 1000 where it is more.
fn distance(a: Vec2, b: Vec2) -> u64
    requires { BothMeasurable a b }
{
    let d = plane::minus(a, b);
    root_above(plane::dot(d, d).unsigned_abs())
}

// Document 002's sample path with an arc of so much on 10 m.
fn sample_job(arc: u32) -> Job {
    rigs::sample_job(0, arc, 100000)
}

// From the origin northwards: 4 km on one curve in 2,000 steps, and a straight of one tick where asked for.
fn long_job(curve: Curve, count: usize) -> Job {
    let mut elements = job::empty_elements();
    elements[0] = Element {
        length: 40000000,
        curve,
    };
    elements[1] = rigs::straight(1);
    Job {
        vehicle: rigs::sample_vehicle(0),
        start: rigs::heading_for(0, 1000000),
        step: 20000,
        count,
        elements,
    }
}

// Where the path of a job ends, or why it is refused; the last of the runs is lent, the others have room for the longest.
fn job_end(j: Job, gys: &mut [i32]) -> Result<PathEnd, Fault>
    ensures { IfOk result (λ end. Measurable end.position) }
{
    let mut xs = [0i32; 2001];
    let mut ys = [0i32; 2001];
    let mut gxs = [0i32; 2001];
    let mut room = PathRoom {
        xs: &mut xs,
        ys: &mut ys,
        gxs: &mut gxs,
        gys,
    };
    path_end(j, &mut room)
}

// One line: the stations, how far the last lies from its target, and whether both are as they should be. What cannot be written is lost: a trial
// has nowhere else to tell it.
fn report(rt: &impl Print, name: &str, j: Job, wanted: PathEnd, most: u64)
    requires { Measurable wanted.position }
{
    let mut gys = [0i32; 2001];
    let Ok(end) = job_end(j, &mut gys) else {
        let _written = println!(rt; "{name}: refused: FAILED");
        return;
    };
    let off = distance(end.position, wanted.position);
    let stations = end.stations;
    let passed = stations == wanted.stations && off <= most;
    let verdict = if passed { "passed" } else { "FAILED" };
    let _written = println!(rt; "{name}: {stations} stations, {off} ticks off: {verdict}");
}

// One line: the number of a refusal, 0 for none, and whether it is as it should be.
fn report_refusal(rt: &impl Print, name: &str, given: Option<Fault>, wanted: Fault) {
    let number = given.map_or(0, |fault| fault.number());
    let verdict = if given == Some(wanted) {
        "passed"
    } else {
        "FAILED"
    };
    let _written = println!(rt; "{name}: refused {number}: {verdict}");
}

// The place of the last station is held to where it should be.
fn report_ends(rt: &impl Print) {
    let quarter = PathEnd {
        stations: 85,
        position: Vec2 {
            x: 160000,
            y: -300000,
        },
    };
    report(rt, "quarter turn", sample_job(157080), quarter, 200);
    let half = PathEnd {
        stations: 116,
        position: Vec2 {
            x: -140000,
            y: -200000,
        },
    };
    report(rt, "half turn", sample_job(314160), half, 200);
    let north = PathEnd {
        stations: 2001,
        position: Vec2 { x: 0, y: 40000000 },
    };
    let straight = long_job(Curve::Straight, 1);
    report(rt, "2,000 steps straight", straight, north, 0);
    let round = PathEnd {
        stations: 2001,
        position: Vec2 {
            x: 1665914,
            y: 746006,
        },
    };
    let arc = long_job(Curve::Arc(Side::Right, 1000000), 1);
    report(rt, "2,000 steps on an arc", arc, round, 0);
}

fn report_refusals(rt: &impl Print) {
    let mut gys = [0i32; 2001];
    let longer = job_end(long_job(Curve::Straight, 2), &mut gys).err();
    report_refusal(rt, "2,001 steps", longer, Fault::StepTotal);
    let pointless = job_end(long_job(Curve::Arc(Side::Left, 0), 1), &mut gys).err();
    report_refusal(rt, "an arc of radius 0", pointless, Fault::Element);
    let mut short = [0i32; 84];
    let cramped = job_end(sample_job(157080), &mut short).err();
    report_refusal(rt, "a run one entry short", cramped, Fault::RunTooShort);
}

fn main(rt: HostRuntime) {
    report_ends(&rt);
    report_refusals(&rt);
}
