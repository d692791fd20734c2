// The table of the points of a rig: what each is measured from, how far ahead of it and how far beside it.
#![tactic(auto)]

ghost use Rattle.std.specs.Prelude.{◌≡◌};
ghost use Rattle.marks.specs.Requires.{HasRoom};
ghost use Rattle.point_table.specs.Table.{row_at};

use job::Side;

// What a point is measured from: the front point or the rear axle of a unit, counted from 0, or the rear axle of the last unit.
#[derive(Clone, Copy)]
pub enum Base {
    Front(usize),
    Rear(usize),
    LastRear,
}

// How far ahead of its base a point lies: as far as the body's corner there, or no way.
// Kept: the new form is no plainer: an Option would hold no value beside `Corner`, and a row of the table reads by these words.
#[derive(Clone, Copy)]
pub enum Along {
    Corner,
    Nothing,
}

// How far beside its base a point lies: as far as the body's corner there, or the vehicle's half width at the front wheels or the rear ones.
#[derive(Clone, Copy)]
pub enum Width {
    Corner,
    FrontHalf,
    RearHalf,
}

// A row of the table.
#[derive(Clone, Copy)]
pub struct Row {
    pub base: Base,
    pub along: Along,
    pub side: Side,
    pub width: Width,
}

// A row as the table reads: base, along, side, width.
macro_rules! row {
    ($base:expr, $along:ident, $side:ident, $width:ident) => {
        Row {
            base: $base,
            along: Along::$along,
            side: Side::$side,
            width: Width::$width,
        }
    };
}

// The points by number: a rig has as many of them as `marks::point_count` says.
const ROWS: [Row; marks::POINT_CAPACITY] = [
    row!(Base::Front(0), Corner, Left, Corner),
    row!(Base::Front(0), Corner, Right, Corner),
    row!(Base::Front(0), Nothing, Left, FrontHalf),
    row!(Base::Front(0), Nothing, Right, FrontHalf),
    row!(Base::LastRear, Nothing, Left, RearHalf),
    row!(Base::LastRear, Nothing, Right, RearHalf),
    row!(Base::Rear(0), Corner, Left, Corner),
    row!(Base::Rear(0), Corner, Right, Corner),
    row!(Base::Front(1), Corner, Left, Corner),
    row!(Base::Front(1), Corner, Right, Corner),
    row!(Base::Rear(1), Corner, Left, Corner),
    row!(Base::Rear(1), Corner, Right, Corner),
    row!(Base::Front(2), Corner, Left, Corner),
    row!(Base::Front(2), Corner, Right, Corner),
    row!(Base::Rear(2), Corner, Left, Corner),
    row!(Base::Rear(2), Corner, Right, Corner),
    row!(Base::Front(3), Corner, Left, Corner),
    row!(Base::Front(3), Corner, Right, Corner),
    row!(Base::Rear(3), Corner, Left, Corner),
    row!(Base::Rear(3), Corner, Right, Corner),
];

// The row of point k.
pub fn row_of(k: usize) -> Row
    requires { HasRoom k }
    ensures { result ≡ row_at k }
{
    ROWS[k]
}
