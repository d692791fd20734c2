// The calls of a table's line, and what they answered held to the line.
use kerb_line::Kerb;
use kerb_reader::KerbRefusal;
use kerb_report::Touch;
use refusal::Fault;
use run::{RunRefusal, Stop};
use swept::SweepRefusal;
use trial_calls::runs::{PathArrays, ROOM};
use trial_tools::reading::{Line, same};

// Room for some bytes more than the longest geometry has.
const GEOMETRY_ROOM: usize = 8100;

// A refusal's number or 0, where it is placed, and how many vertices were read.
fn numbers_of_reading(read: Result<usize, KerbRefusal>) -> (u8, usize, usize) {
    match read {
        Ok(count) => (0, 0, count),
        Err(KerbRefusal::Field(refusal)) => (refusal.fault.number(), refusal.place, 0),
        Err(KerbRefusal::NoRoom) => (Fault::RunTooShort.number(), 0, 0),
    }
}

pub fn read(line: &mut Line<'_>) -> Option<()> {
    let mut geometry = [0u8; GEOMETRY_ROOM];
    let mut xs = [0i32; ROOM];
    let mut ys = [0i32; ROOM];
    let geometry = line.run(&mut geometry)?;
    let xs = line.run(&mut xs)?;
    let ys = line.run(&mut ys)?;
    line.equals_sign()?;
    let (number, place, count) = numbers_of_reading(kerb_reader::read_kerb(geometry, xs, ys));
    same(line.number()?, number)?;
    same(line.number()?, place)?;
    same(line.number()?, count)?;
    line.expect_run(xs)?;
    line.expect_run(ys)
}

// The unit that cannot go on, whether a touch was found, the step and the point; 0 for what there is not.
#[derive(Clone, Copy, Default, PartialEq, Eq)]
struct Told {
    unit: usize,
    found: usize,
    step: usize,
    point: usize,
}

fn told_touch(touch: Option<Touch>) -> Told {
    match touch {
        Some(Touch { step, point }) => Told {
            unit: 0,
            found: 1,
            step,
            point,
        },
        None => Told::default(),
    }
}

fn told_stop(stop: Stop) -> Told {
    Told {
        unit: stop.unit,
        found: 0,
        step: stop.step,
        point: 0,
    }
}

// Kept: the new form is no plainer: structs are read alike, each by its own fields' names.
fn read_told(line: &mut Line<'_>) -> Option<Told> {
    Some(Told {
        unit: line.number()?,
        found: line.number()?,
        step: line.number()?,
        point: line.number()?,
    })
}

// A refusal's number or 0, and the touch.
fn told_report(report: Result<Option<Touch>, RunRefusal>) -> (u8, Told) {
    match report {
        Ok(touch) => (0, told_touch(touch)),
        Err(RunRefusal::Stopped(stop)) => (stop.fault.number(), told_stop(stop)),
        Err(RunRefusal::Refused(fault)) => (fault.number(), Told::default()),
    }
}

pub fn report(line: &mut Line<'_>) -> Option<()> {
    let mut path_arrays = PathArrays::empty();
    let mut xs = [0i32; ROOM];
    let mut ys = [0i32; ROOM];
    let walk = line.walk()?;
    let asked = line.number()?;
    let path_room = path_arrays.read(line)?;
    let kerb = Kerb {
        count: line.number()?,
        xs: line.run(&mut xs)?,
        ys: line.run(&mut ys)?,
    };
    line.equals_sign()?;
    let (number, touch) = told_report(kerb_report::report(walk, asked, path_room.laid(), kerb));
    same(line.number()?, number)?;
    same(read_told(line)?, touch)
}

// A refusal's number or 0, the byte where it is placed, and the touch.
fn told_kerbed(kerbed: Result<Option<Touch>, SweepRefusal>) -> (u8, usize, Told) {
    match kerbed {
        Ok(touch) => (0, 0, told_touch(touch)),
        Err(SweepRefusal::Stopped(stop)) => (stop.fault.number(), 0, told_stop(stop)),
        Err(SweepRefusal::Refused(refusal)) => {
            (refusal.fault.number(), refusal.place, Told::default())
        }
    }
}

fn expect_kerbed(line: &mut Line<'_>, kerbed: Result<Option<Touch>, SweepRefusal>) -> Option<()> {
    let (number, byte, touch) = told_kerbed(kerbed);
    same(line.number()?, number)?;
    same(line.number()?, byte)?;
    same(read_told(line)?, touch)
}

pub fn check_ticks(line: &mut Line<'_>) -> Option<()> {
    let mut job = [0u8; ROOM];
    let mut xs = [0i32; ROOM];
    let mut ys = [0i32; ROOM];
    let job = line.run(&mut job)?;
    let kerb = Kerb {
        count: line.number()?,
        xs: line.run(&mut xs)?,
        ys: line.run(&mut ys)?,
    };
    line.equals_sign()?;
    expect_kerbed(line, kerbed::check_ticks(job, kerb))
}

pub fn check_geometry(line: &mut Line<'_>) -> Option<()> {
    let mut job = [0u8; ROOM];
    let mut geometry = [0u8; GEOMETRY_ROOM];
    let job = line.run(&mut job)?;
    let geometry = line.run(&mut geometry)?;
    line.equals_sign()?;
    expect_kerbed(line, kerbed::check_geometry(job, geometry))
}
