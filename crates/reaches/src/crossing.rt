// What the points that cross a station make of its cell.
ghost use Rattle.std.specs.Prelude.{◌≡◌};
ghost use Rattle.reaches.specs.Crossing.{ahead_of, reach_of, crosses, some_crosses, crossed_by, crossed_from};
ghost use Rattle.reaches.specs.Far.{PairMoves, PairsMove, pair_crosses};
ghost use Rattle.reaches.specs.Inner.{Measurable, Movable, Numbered, AllMoves};

use crate::Cell;
use path::Station;
use plane::Vec2;

// How far ahead of a station a point lies, times the heading's length.
pub(crate) fn ahead_of(s: Station, a: Vec2) -> i64
    requires { Measurable s a }
    ensures { result ≡ ahead_of s a }
{
    (a.x - s.position.x) * s.heading.x + (a.y - s.position.y) * s.heading.y
}

// How far to the right of a station a point lies.
fn reach(s: Station, a: Vec2) -> i32
    requires { Measurable s a }
    ensures { result ≡ reach_of s a }
{
    let aside = (a.x - s.position.x) * s.heading.y - (a.y - s.position.y) * s.heading.x;
    exact::nearest(aside, 1000000) as i32
}

// Whether a point that moves from old to new crosses a station.
// The second product is spared where the point is past the station already.
fn crosses_station(s: Station, old: Vec2, new: Vec2) -> bool
    requires { Movable s old new }
    ensures { result ≡ crosses s old new }
{
    ahead_of(s, old) < 0 && 0 <= ahead_of(s, new)
}

// A station's cell after the move of one point.
fn crossed_cell(p: usize, s: Station, old: Vec2, new: Vec2, c: Cell) -> Cell
    requires { Numbered p s old new }
    ensures { result ≡ crossed_by p s old new c }
{
    if !crosses_station(s, old, new) {
        return c;
    }
    let a = reach(s, old);
    let b = reach(s, new);
    Cell {
        left: c.left.min(a.min(b)),
        right: c.right.max(a.max(b)),
        mark: marks::with_bit(p, c.mark),
    }
}

// The same after the moves of all points.
// Kept: two slices, for the reason given at `ReachRoom::cross`.
pub(crate) fn crossed_by_all(s: Station, olds: &[Vec2], news: &[Vec2], c: Cell) -> Cell
    requires { AllMoves s olds.now news.now }
    ensures { result ≡ crossed_from 0 s olds.now news.now c }
{
    let mut next = c;
    for (p, old) in olds.iter().enumerate() {
        next = crossed_cell(p, s, *old, news[p], next);
    }
    next
}

// Whether either point of a pair, left and right, crosses a station; one product tells where both lie too far off.
fn pair_crosses(s: Station, near: i64, old: [Vec2; 2], new: [Vec2; 2]) -> bool
    requires { PairMoves s near old new }
    ensures { result ≡ pair_crosses s old new }
{
    !crate::far::far_off(s, old[0], near)
        && (crosses_station(s, old[0], new[0]) || crosses_station(s, old[1], new[1]))
}

// Whether any point crosses a station, told pair by pair; near is how far those of a pair spread.
// Kept: two slices, for the reason given at `ReachRoom::cross`.
pub(crate) fn some_crosses(s: Station, near: i64, olds: &[Vec2], news: &[Vec2]) -> bool
    requires { PairsMove s near olds.now news.now }
    ensures { result ≡ some_crosses s olds.now news.now }
{
    let (from, _) = olds.as_chunks::<2>();
    let (to, _) = news.as_chunks::<2>();
    for (old, new) in from.iter().zip(to) {
        if pair_crosses(s, near, *old, *new) {
            return true;
        }
    }
    false
}
