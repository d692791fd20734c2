// The path of the tractor's front axle, laid station by station.
#![tactic(auto)]

ghost use Rattle.std.specs.Prelude.{◌≡◌};
ghost use Rattle.path.specs.Stations.{start_station, station_after, step_total};
ghost use Rattle.path.specs.Laying.{path_runs, room_for, written, stored, stations_over, Storable, Accepted, Layable, LayEnsures};
ghost use Rattle.path.specs.Lent.{room_runs, SameLoans};
ghost use Rattle.path.specs.LaidPath.{LaidPath};
ghost use Rattle.path.specs.Cursor.{cursor_after, Reachable, OnElement};

use job::{Curve, Element, Job, Start};
use plane::Vec2;
use refusal::Fault;

// A station of the path: where it lies, and the path's heading there.
#[derive(Clone, Copy)]
pub struct Station {
    pub position: Vec2,
    pub heading: Vec2,
}

// A path in four lent runs, one entry a station: where each lies, and the heading there.
// Kept: the C interface needs it: it hands over the four runs one by one.
#[derive(Clone, Copy)]
pub struct Path<'a> {
    pub xs: &'a [i32],
    pub ys: &'a [i32],
    pub gxs: &'a [i32],
    pub gys: &'a [i32],
}

// Four lent runs that a path is laid into.
// Kept: four runs, for the reason given at `Path`.
#[derive(Drop)]
pub struct PathRoom<'a> {
    pub xs: &'a mut [i32],
    pub ys: &'a mut [i32],
    pub gxs: &'a mut [i32],
    pub gys: &'a mut [i32],
}

impl<'a> PathRoom<'a> {
    // Whether each run has room for so many stations.
    fn has_room(&self, stations: usize) -> bool
        ensures { result ≡ room_for stations (room_runs self.now) }
    {
        (stations <= self.xs.len())
            & ((stations <= self.ys.len())
                & ((stations <= self.gxs.len()) & (stations <= self.gys.len())))
    }

    // One station is written into the four runs.
    fn store(&mut self, i: usize, p: Station)
        requires { Storable i p (room_runs self.old) }
        ensures loans { SameLoans self.old self.new }
        ensures stored { room_runs self.new ≡ stored i p (room_runs self.old) }
    {
        // Kept: the new form is no plainer: i32 has no From of an i64, and try_from would answer an error that cannot come.
        self.xs[i] = p.position.x as i32;
        self.ys[i] = p.position.y as i32;
        self.gxs[i] = p.heading.x as i32;
        self.gys[i] = p.heading.y as i32;
    }

    // The stations of the elements in use are written, from the start on.
    fn lay_stations(&mut self, elements: &[Element], step: u32, steps: usize, start: Station)
        requires { Layable step steps elements.now start (room_runs self.old) }
        ensures loans { SameLoans self.old self.new }
        ensures laid { room_runs self.new ≡ written (stations_over step elements.now start) (room_runs self.old) }
    {
        self.store(0, start);
        let mut c = PathCursor {
            element: 0,
            before: 0,
            station: start,
        };
        for i in 0..steps {
            c = next_cursor(c, elements[c.element], step);
            self.store(i + 1, c.station);
        }
    }

    // What has been laid, to be read.
    pub fn laid(&self) -> Path<'_>
        ensures { path_runs result.xs.now result.ys.now result.gxs.now result.gys.now ≡ room_runs self.now }
    {
        Path {
            xs: self.xs,
            ys: self.ys,
            gxs: self.gxs,
            gys: self.gys,
        }
    }
}

// Where the path has been walked to: the element, the ticks of it behind, and the station.
#[derive(Clone, Copy)]
pub struct PathCursor {
    pub element: usize,
    pub before: u32,
    pub station: Station,
}

// The station a step of length s on a curve leads to.
fn next_station(p: Station, curve: Curve, s: u32) -> Station
    requires { Reachable p curve s }
    ensures { result ≡ station_after p curve s }
{
    let advance = heading::path_step(p.heading, i64::from(s), heading::radius_of(curve));
    Station {
        position: plane::plus(p.position, advance.shift),
        heading: advance.heading,
    }
}

// One step on, along the element that the cursor is on.
fn next_cursor(c: PathCursor, e: Element, step: u32) -> PathCursor
    requires { OnElement step e c }
    ensures { result ≡ cursor_after step e c }
{
    let s = step.min(e.length - c.before);
    let station = next_station(c.station, e.curve, s);
    let behind = c.before + s;
    if behind < e.length {
        return PathCursor {
            element: c.element,
            before: behind,
            station,
        };
    }
    PathCursor {
        element: c.element + 1,
        before: 0,
        station,
    }
}

// How many steps the elements in use are cut into.
pub fn step_count(elements: &[Element], step: u32) -> usize
    requires { Accepted step elements.now }
    ensures { result ≡ step_total step 0 elements.now }
{
    let mut total: u64 = 0;
    for e in elements {
        total = job::tally_element(total, step, *e);
    }
    // Kept: the new form is no plainer: usize has no From of a u64, and try_from would answer an error that cannot come.
    total as usize
}

fn start_station(s: Start) -> Station
    ensures { result ≡ start_station s }
{
    Station {
        position: Vec2 {
            x: i64::from(s.x),
            y: i64::from(s.y),
        },
        heading: Vec2 {
            x: i64::from(s.gx),
            y: i64::from(s.gy),
        },
    }
}

// The path of a job is laid into four lent runs, one entry a station; a refusal writes nothing.
pub fn lay(j: Job, room: &mut PathRoom) -> Result<usize, Fault>
    ensures loans { SameLoans room.old room.new }
    ensures laid { LayEnsures j (room_runs room.old) result (room_runs room.new) }
{
    job::judge(j)?;
    let elements = &j.elements[..j.count];
    let steps = step_count(elements, j.step);
    let stations = steps + 1;
    if !room.has_room(stations) {
        return Err(Fault::RunTooShort);
    }
    room.lay_stations(elements, j.step, steps, start_station(j.start));
    Ok(stations)
}

// Every station of a job without a fault is sound, and laying leaves the runs with them. (A claim: it runs nothing.)
pub fn laid_path()
    ensures { LaidPath }
{}
