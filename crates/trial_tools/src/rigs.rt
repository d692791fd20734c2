// Sample rigs, all of short jobs, and jobs for them.
ghost use Rattle.std.specs.Prelude.{◌≡◌, pos};
ghost use Rattle.job.specs.Empty.{empty_body};
ghost use Rattle.job.specs.declared.Curve.TheVariants.{Straight, Arc};
ghost use Rattle.job.specs.declared.Side.TheVariants.{Right};
ghost use Rattle.path.specs.Lent.{path_of};
ghost use Rattle.walk.specs.Drawn.{view};
ghost use Rattle.reaches.specs.Lent.{room_reaches, SameLoans};
ghost use Rattle.stations.specs.Placing.{call_of};
ghost use Rattle.trial_tools.specs.Placed.{walk_placed, runs_placed};

use job::{Curve, Element, Form, Job, Side, Start, Unit, Vehicle};
use path::Path;
use plane::Vec2;
use reaches::ReachRoom;
use walk::Walk;

// A unit of a short job, whose body is not read.
pub fn unit(wheelbase: u32, hitch: i32, fold: i32) -> Unit
    ensures { result ≡ record { wheelbase = wheelbase; hitch = hitch; fold = fold; body = empty_body } }
{
    Unit {
        wheelbase,
        hitch,
        fold,
        body: job::empty_body(),
    }
}

pub fn straight(length: u32) -> Element
    ensures { result ≡ record { length = length; curve = Straight } }
{
    Element {
        length,
        curve: Curve::Straight,
    }
}

pub fn right_turn(length: u32, radius: u32) -> Element
    ensures { result ≡ record { length = length; curve = Arc Right radius } }
{
    Element {
        length,
        curve: Curve::Arc(Side::Right, radius),
    }
}

// A start at the origin.
// Kept: the new form is no plainer: a start holds these two numbers by themselves.
pub fn heading_for(gx: i32, gy: i32) -> Start
    ensures { result ≡ record { x = pos 0; y = pos 0; gx = gx; gy = gy } }
{
    Start { x: 0, y: 0, gx, gy }
}

// Document 002's tractor of 4.3 m and trailer of 6.93 m; its listing has no fold limit.
pub fn sample_vehicle(fold: i32) -> Vehicle {
    let mut units = job::empty_units();
    units[0] = unit(43000, 1800, 0);
    units[1] = unit(69300, 0, fold);
    Vehicle {
        form: Form::Short,
        count: 2,
        units,
        overhang: 15000,
        front_half_width: 12500,
        rear_half_width: 12500,
    }
}

// From the origin eastwards: 6 m straight, an arc to the right, 20 m straight, in steps of 0.5 m.
pub fn sample_job(fold: i32, arc: u32, radius: u32) -> Job {
    let vehicle = sample_vehicle(fold);
    let mut elements = job::empty_elements();
    elements[0] = straight(60000);
    elements[1] = right_turn(arc, radius);
    elements[2] = straight(200000);
    Job {
        vehicle,
        start: heading_for(1000000, 0),
        step: 5000,
        count: 3,
        elements,
    }
}

// A vehicle placed on a path; a record whose vectors are zero, which no step takes, where it is refused.
pub fn placed(v: Vehicle, asked: usize, path: Path<'_>, room: &mut ReachRoom<'_>) -> Walk
    ensures loans { SameLoans room.old room.new }
    ensures walk { view result ≡ walk_placed v (call_of asked (path_of path.entry) (room_reaches room.old)) }
    ensures runs { room_reaches room.new ≡ runs_placed v (call_of asked (path_of path.entry) (room_reaches room.old)) (room_reaches room.old) }
{
    let mut w = Walk {
        vehicle: v,
        station: 0,
        d: [Vec2 { x: 0, y: 0 }; 4],
    };
    let _refused = stations::place(v, &mut w, asked, path, room);
    w
}
