// What geometry says of slow turning, apart from any printed table. On a circle the rear axles run at radii that are square roots; on the straight after
// a bend the tangent of half the angle between the first unit and the path falls by an exponential.
// Both stand in the table, data/table.txt, which tools/physics.py writes and explains: rigs are walked along its jobs and held to it, in whole numbers.
#![tactic(auto)]

mod line;
mod measure;

use crate::line::Line;
use job::{Job, Vehicle};
use path::{Path, PathRoom};
use plane::Vec2;
use reaches::ReachRoom;
use trial_tools::reading::content;
use trial_tools::{places, rigs, tables};
use walk::Walk;

// What is measured: the last unit's axle on a circle, or the first unit's vector against the line's next one.
#[derive(Clone, Copy)]
enum Course {
    Circle(Vec2, u32),
    Straight,
}

// What is measured, from which station on, and how far off it may be.
#[derive(Clone, Copy)]
struct Trial {
    course: Course,
    from: usize,
    most: u32,
}

// The stations measured, and the largest deviation of them.
#[derive(Clone, Copy)]
struct Found {
    stations: u64,
    largest: u32,
}

impl Found {
    fn enter(&mut self, off: u32) {
        self.stations = self.stations.wrapping_add(1);
        self.largest = self.largest.max(off);
    }
}

// How far off a rig at its station is; one that was held up is beyond all bounds.
fn measured(
    line: &mut Line<'_>,
    course: Course,
    made: usize,
    w: Walk,
    asked: usize,
    path: Path<'_>,
) -> u32 {
    if w.station != made {
        return measure::BEYOND;
    }
    match course {
        Course::Circle(centre, radius) => match places::points_at(w, asked, path) {
            Some(p) => measure::off_circle(p[4], p[5], centre, radius),
            None => measure::BEYOND,
        },
        Course::Straight => measure::between(w.d[0], line.vector()),
    }
}

// The rig is placed and stepped to the last station, and measured at each.
fn follow(
    line: &mut Line<'_>,
    t: Trial,
    v: Vehicle,
    asked: usize,
    path: Path<'_>,
    room: &mut ReachRoom<'_>,
) -> Found {
    let mut w = rigs::placed(v, asked, path, room);
    let mut found = Found {
        stations: 0,
        largest: 0,
    };
    for made in 0..asked {
        if t.from <= made {
            found.enter(measured(line, t.course, made, w, asked, path));
        }
        // A rig that is held up is measured as beyond all bounds.
        let _refused = stations::step(&mut w, asked, path, room);
    }
    found
}

// The job's path is laid and followed; nothing is measured where it is refused.
fn try_job(line: &mut Line<'_>, t: Trial, j: Job) -> Found {
    let mut path_room = PathRoom {
        xs: &mut [0i32; 600],
        ys: &mut [0i32; 600],
        gxs: &mut [0i32; 600],
        gys: &mut [0i32; 600],
    };
    let mut room = ReachRoom {
        left: &mut [0i32; 600],
        right: &mut [0i32; 600],
        marks: &mut [0u32; 600],
    };
    let Ok(asked) = path::lay(j, &mut path_room) else {
        return Found {
            stations: 0,
            largest: measure::BEYOND,
        };
    };
    follow(line, t, j.vehicle, asked, path_room.laid(), &mut room)
}

// Kept: the new form is no plainer: the kind only tells what follows it in the line.
// Of kind 1 a circle's centre and radius, with the axle up to 5 mm off; of any other how far off the vectors may be, which are read station by station.
fn read_trial(line: &mut Line<'_>, kind: usize, from: usize) -> Trial {
    let (course, most) = if kind == 1 {
        (Course::Circle(line.vector(), line.natural()), 50)
    } else {
        (Course::Straight, line.natural())
    };
    Trial { course, from, most }
}

// What a line came to.
#[derive(Clone, Copy)]
struct Outcome {
    units: usize,
    trial: Trial,
    found: Found,
    is_whole: bool,
}

// A line that goes wrong fails, but is followed all the same, as far as it goes.
fn try_line(line: &[u8]) -> Outcome {
    let mut line = Line::of(line);
    let kind = line.size();
    let job = line.job();
    let from = line.size();
    line.equals_sign();
    let trial = read_trial(&mut line, kind, from);
    let found = try_job(&mut line, trial, job);
    Outcome {
        units: job.vehicle.count,
        trial,
        found,
        is_whole: line.is_whole(),
    }
}

fn passes(o: Outcome) -> bool {
    o.found.largest <= o.trial.most && o.found.stations != 0 && o.is_whole
}

// What cannot be written is lost: a trial has nowhere else to tell it.
fn report(rt: &impl Print, o: Outcome) {
    let units = o.units;
    let _course = match o.trial.course {
        Course::Circle(_, radius) => {
            print!(rt; "unit {units} on a circle, its axle at {radius}: ")
        }
        Course::Straight => print!(rt; "unit {units} on the straight after a bend: "),
    };
    let stations = o.found.stations;
    let largest = o.found.largest;
    let most = o.trial.most;
    let verdict = if passes(o) { "passed" } else { "FAILED" };
    let _found = println!(rt;
        "{stations} stations, largest deviation {largest} ticks of {most}: {verdict}"
    );
}

fn main(rt: HostRuntime) {
    let mut text = [0u8; 65536];
    let length = tables::read_table(&rt, "table.txt", &mut text).unwrap_or(0);
    for line in text[..length].split_inclusive(|b| *b == b'\n') {
        report(&rt, try_line(content(line)));
    }
}
