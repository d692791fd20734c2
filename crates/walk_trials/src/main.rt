// Walks three rigs from the first station of their paths to the last, and checks how many steps they make and where they are widest.
#![tactic(auto)]

use job::{Form, Job, Vehicle};
use path::{Path, PathRoom};
use reaches::{Place, ReachRoom};
use trial_tools::rigs;
use walk::Walk;

// The steps that a rig makes, and where it is widest.
#[derive(Clone, Copy, PartialEq, Eq)]
struct Walked {
    steps: usize,
    widest: Place,
}

// A rig is placed and stepped until a step is refused; the steps made, and the record that the walk ends with.
fn walk_along(v: Vehicle, asked: usize, path: Path<'_>, room: &mut ReachRoom<'_>) -> (usize, Walk) {
    let mut w = rigs::placed(v, asked, path, room);
    for made in 0..asked {
        if stations::step(&mut w, asked, path, room).is_err() {
            return (made, w);
        }
    }
    (asked, w)
}

// The job's path is laid and its rig walked along it.
fn walk_of(j: Job) -> Option<Walked> {
    let mut path_room = PathRoom {
        xs: &mut [0i32; 2001],
        ys: &mut [0i32; 2001],
        gxs: &mut [0i32; 2001],
        gys: &mut [0i32; 2001],
    };
    let mut room = ReachRoom {
        left: &mut [0i32; 2001],
        right: &mut [0i32; 2001],
        marks: &mut [0u32; 2001],
    };
    let asked = path::lay(j, &mut path_room).ok()?;
    let (steps, w) = walk_along(j.vehicle, asked, path_room.laid(), &mut room);
    let widest = reaches::widest(w, asked, room.reached()).ok()?;
    Some(Walked { steps, widest })
}

// One line: the steps, the widest station, and whether the walk is as it should be. What cannot be written is lost: a trial has nowhere else
// to tell it.
fn report(rt: &impl Print, name: &str, j: Job, wanted: Walked) {
    let steps = wanted.steps;
    let station = wanted.widest.station;
    let verdict = if walk_of(j) == Some(wanted) {
        "passed"
    } else {
        "FAILED"
    };
    let _written = println!(rt; "{name}: {steps} steps, widest at station {station}: {verdict}");
}

// The worked straight: one unit of 5 m, its body 2.4 m wide and 1 m ahead of the front axle, 6.5 m due north in steps of 0.5 m.
fn straight_job() -> Job {
    let mut units = job::empty_units();
    units[0] = rigs::unit(50000, 0, 0);
    let mut elements = job::empty_elements();
    elements[0] = rigs::straight(65000);
    let vehicle = Vehicle {
        form: Form::Short,
        count: 1,
        units,
        overhang: 10000,
        front_half_width: 12000,
        rear_half_width: 12000,
    };
    Job {
        vehicle,
        start: rigs::heading_for(0, 1000000),
        step: 5000,
        count: 1,
        elements,
    }
}

// A tractor of 4.3 m and a trailer of 6.93 m: 6 m east, a quarter turn to the right on 10 m, 20 m south, in steps of 0.5 m.
fn quarter_job() -> Job {
    rigs::sample_job(0, 157080, 100000)
}

// Four units on an arc of 100 m to the right: 4 km in 2,000 steps of 2 m, the most that a job has.
fn longest_job() -> Job {
    let mut units = job::empty_units();
    units[0] = rigs::unit(50000, -1000, 0);
    units[1] = rigs::unit(60000, 1000, -1000);
    units[2] = rigs::unit(50000, -1000, -1000);
    units[3] = rigs::unit(60000, 0, -1000);
    let mut elements = job::empty_elements();
    elements[0] = rigs::right_turn(40000000, 1000000);
    let vehicle = Vehicle {
        form: Form::Short,
        count: 4,
        units,
        overhang: 10000,
        front_half_width: 12000,
        rear_half_width: 12000,
    };
    Job {
        vehicle,
        start: rigs::heading_for(0, 1000000),
        step: 20000,
        count: 1,
        elements,
    }
}

fn main(rt: HostRuntime) {
    let straight = Walked {
        steps: 13,
        widest: Place {
            station: 3,
            width: 24000,
            left: -12000,
            right: 12000,
        },
    };
    report(&rt, "one unit on a straight", straight_job(), straight);
    let quarter = Walked {
        steps: 84,
        widest: Place {
            station: 34,
            width: 59020,
            left: -17648,
            right: 41372,
        },
    };
    report(
        &rt,
        "tractor and trailer round a quarter turn",
        quarter_job(),
        quarter,
    );
    let longest = Walked {
        steps: 2000,
        widest: Place {
            station: 1246,
            width: 54125,
            left: -35841,
            right: 18284,
        },
    };
    report(&rt, "four units round and round", longest_job(), longest);
}
