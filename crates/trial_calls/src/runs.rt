// The runs that a line lends to a call, in arrays of one entry more than a path has stations.
ghost use Rattle.std.specs.Prelude.{◌≤◌, length, IfSome};

use marks::Mark;
use path::PathRoom;
use reaches::ReachRoom;
use trial_tools::reading::Line;

pub const ROOM: usize = 2002;

// Arrays for the runs of a path.
#[derive(Drop)]
pub struct PathArrays {
    xs: [i32; ROOM],
    ys: [i32; ROOM],
    gxs: [i32; ROOM],
    gys: [i32; ROOM],
}

impl PathArrays {
    pub fn empty() -> PathArrays {
        PathArrays {
            xs: [0; ROOM],
            ys: [0; ROOM],
            gxs: [0; ROOM],
            gys: [0; ROOM],
        }
    }

    pub fn read(&mut self, line: &mut Line<'_>) -> Option<PathRoom<'_>>
        ensures xs { IfSome result (λ room. length room.xs.now ≤ 2002) }
        ensures ys { IfSome result (λ room. length room.ys.now ≤ 2002) }
        ensures gxs { IfSome result (λ room. length room.gxs.now ≤ 2002) }
        ensures gys { IfSome result (λ room. length room.gys.now ≤ 2002) }
    {
        let PathArrays { xs, ys, gxs, gys } = self;
        Some(PathRoom {
            xs: line.run(xs)?,
            ys: line.run(ys)?,
            gxs: line.run(gxs)?,
            gys: line.run(gys)?,
        })
    }
}

// Arrays for the runs that a walk writes.
#[derive(Drop)]
pub struct ReachArrays {
    left: [i32; ROOM],
    right: [i32; ROOM],
    marks: [Mark; ROOM],
}

impl ReachArrays {
    pub fn empty() -> ReachArrays {
        ReachArrays {
            left: [0; ROOM],
            right: [0; ROOM],
            marks: [0; ROOM],
        }
    }

    pub fn read(&mut self, line: &mut Line<'_>) -> Option<ReachRoom<'_>>
        ensures left { IfSome result (λ room. length room.left.now ≤ 2002) }
        ensures right { IfSome result (λ room. length room.right.now ≤ 2002) }
        ensures marks { IfSome result (λ room. length room.marks.now ≤ 2002) }
    {
        let ReachArrays { left, right, marks } = self;
        Some(ReachRoom {
            left: line.run(left)?,
            right: line.run(right)?,
            marks: line.run(marks)?,
        })
    }
}
