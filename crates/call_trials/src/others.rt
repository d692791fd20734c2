// Calls of the other entries: the widest place, writing and laying a job, and the two turns.
use plane::Vec2;
use reaches::Place;
use refusal::Fault;
use trial_calls::runs::{PathArrays, ROOM, ReachArrays};
use trial_tools::reading::{Line, same};

// Stand beside a refusal.
const NO_PLACE: Place = Place {
    station: 0,
    width: 0,
    left: 0,
    right: 0,
};

const NOWHERE: Vec2 = Vec2 { x: 0, y: 0 };

// Kept: the new form is no plainer: structs are read alike, each by its own fields' names.
fn read_place(line: &mut Line<'_>) -> Option<Place> {
    Some(Place {
        station: line.number()?,
        width: line.number()?,
        left: line.number()?,
        right: line.number()?,
    })
}

pub fn widest(line: &mut Line<'_>) -> Option<()> {
    let mut arrays = ReachArrays::empty();
    let walk = line.walk()?;
    let asked = line.number()?;
    let room = arrays.read(line)?;
    line.equals_sign()?;
    let (number, place) = match reaches::widest(walk, asked, room.reached()) {
        Ok(place) => (0, place),
        Err(fault) => (fault.number(), NO_PLACE),
    };
    same(line.number()?, number)?;
    same(read_place(line)?, place)
}

// A refusal's number or 0, and how many bytes were written or stations laid.
fn numbers_of(answer: Result<usize, Fault>) -> (u8, usize) {
    match answer {
        Ok(count) => (0, count),
        Err(fault) => (fault.number(), 0),
    }
}

pub fn write(line: &mut Line<'_>) -> Option<()> {
    let mut room = [0u8; ROOM];
    let job = line.job()?;
    let run = line.run(&mut room)?;
    line.equals_sign()?;
    let (number, count) = numbers_of(job_writer::write_job(job, run));
    same(line.number()?, number)?;
    same(line.number()?, count)?;
    line.expect_run(run)
}

pub fn lay(line: &mut Line<'_>) -> Option<()> {
    let mut arrays = PathArrays::empty();
    let job = line.job()?;
    let mut room = arrays.read(line)?;
    line.equals_sign()?;
    let (number, count) = numbers_of(path::lay(job, &mut room));
    same(line.number()?, number)?;
    same(line.number()?, count)?;
    line.expect_run(room.xs)?;
    line.expect_run(room.ys)?;
    line.expect_run(room.gxs)?;
    line.expect_run(room.gys)
}

pub fn path_turn(line: &mut Line<'_>) -> Option<()> {
    let from = line.vector()?;
    let length = line.number()?;
    let radius = line.number()?;
    line.equals_sign()?;
    let (number, turned, shift) = match heading::turn_path(from, length, radius) {
        Ok(advance) => (0, advance.heading, advance.shift),
        Err(fault) => (fault.number(), NOWHERE, NOWHERE),
    };
    same(line.number()?, number)?;
    same(line.vector()?, turned)?;
    same(line.vector()?, shift)
}

pub fn unit_turn(line: &mut Line<'_>) -> Option<()> {
    let drawn = line.vector()?;
    let moved = line.vector()?;
    let wheelbase = line.number()?;
    line.equals_sign()?;
    let (number, turned) = match unit::turn_unit(drawn, moved, wheelbase) {
        Ok(turned) => (0, turned),
        Err(fault) => (fault.number(), NOWHERE),
    };
    same(line.number()?, number)?;
    same(line.vector()?, turned)
}
