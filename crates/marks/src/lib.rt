// The points of a rig by number, and the mark of a station: which of them have crossed it.
#![tactic(auto)]

ghost use Rattle.std.specs.Prelude.{◌≡◌};
ghost use Rattle.job.specs.Inner.{UnitsInUse};
ghost use Rattle.marks.specs.Count.{point_count};
ghost use Rattle.marks.specs.Marks.{with_bit, all_set};
ghost use Rattle.marks.specs.Requires.{HasPlace, HavePlaces};

use job::Vehicle;

// One bit for each point.
pub type Mark = u32;

// As many points as the arrays that hold them have room for.
pub const POINT_CAPACITY: usize = 20;

// How many points the rig of a vehicle has: four for each unit, and the wheels' four.
#[tactic(auto, unfolding(crate::specs::Count::point_count))]
pub fn point_count(v: Vehicle) -> usize
    requires { UnitsInUse v.count }
    ensures { result ≡ point_count v }
{
    4 * v.count + 4
}

// The mark with a point's bit set; no other bit changes.
pub fn with_bit(p: usize, mark: Mark) -> Mark
    requires { HasPlace p }
    ensures { result ≡ with_bit p mark }
{
    mark | 1 << p
}

// Whether the bits of the first points, so many of them, are all set.
pub fn all_set(count: usize, mark: Mark) -> bool
    requires { HavePlaces count }
    ensures { result ≡ all_set count mark }
{
    // Kept: the new form is no plainer: usize has no From of a u32, and try_from would answer an error that cannot come.
    count <= mark.trailing_ones() as usize
}
