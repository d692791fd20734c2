// Which stations lie too far from the rig for any of its points to cross them: one product tells, in place of one for each point.
ghost use Rattle.std.specs.Prelude.{◌≡◌, ◌/◌, length};
ghost use Rattle.reaches.specs.Far.{apart as apart_z, far_off, misses as misses_z, Farthest, PairSpread, BothSized, AllSized, PairsSized, Spreadable, SpreadOf, Measured, Missable};

use path::Station;
use plane::Vec2;

// How far the points spread in a step: all from one place, and those of any pair, left and right, from the left one's before the step.
#[derive(Clone, Copy)]
pub(crate) struct Spread {
    pub from: Vec2,
    pub near: i64,
    pub beside: i64,
}

impl Spread {
    // The middle point by number lies inside a rig of two units or more, so that fewer stations are near than from an end.
    // Kept: two slices, for the reason given at `ReachRoom::cross`.
    pub(crate) fn of_step(olds: &[Vec2], news: &[Vec2]) -> Spread
        requires { Spreadable olds.now news.now }
        ensures { SpreadOf result olds.now news.now }
    {
        let from = olds[olds.len() / 2];
        Spread {
            from,
            near: farthest(from, farthest(from, 0, olds), news),
            beside: pair_spread(olds, news),
        }
    }

    // Whether a station lies so far off that no point crosses it.
    pub(crate) fn misses(self, s: Station) -> bool
        requires { Missable self s }
        ensures { result ≡ misses_z self s }
    {
        far_off(s, self.from, self.near)
    }
}

// How far apart two points lie, east and north together.
fn apart(a: Vec2, b: Vec2) -> i64
    requires { BothSized a b }
    ensures { result ≡ apart_z a b }
{
    (b.x - a.x).abs() + (b.y - a.y).abs()
}

// As far as any of these points lies from a place, and no less than `least`.
fn farthest(from: Vec2, least: i64, points: &[Vec2]) -> i64
    requires { AllSized from least points.now }
    ensures { Farthest from least points.now (length points.now) result }
{
    let mut most = least;
    for point in points {
        most = most.max(apart(from, *point));
    }
    most
}

// As far as the points of any pair lie from the place of the left one before the step.
// Kept: two slices, for the reason given at `ReachRoom::cross`.
fn pair_spread(olds: &[Vec2], news: &[Vec2]) -> i64
    requires { PairsSized olds.now news.now }
    ensures { PairSpread (length olds.now / 2) olds.now news.now result }
{
    let (from, _) = olds.as_chunks::<2>();
    let (to, _) = news.as_chunks::<2>();
    let mut most: i64 = 0;
    for (old, new) in from.iter().zip(to) {
        let right = apart(old[0], old[1]).max(apart(old[0], new[1]));
        most = most.max(apart(old[0], new[0]).max(right));
    }
    most
}

// Whether a station lies so far from a point, along its own heading, that nothing `near` the point crosses it.
pub(crate) fn far_off(s: Station, a: Vec2, near: i64) -> bool
    requires { Measured s a near }
    ensures { result ≡ far_off s a near }
{
    let ahead = crate::crossing::ahead_of(s, a);
    let limit = near * 1000000;
    (limit <= ahead) | !(-limit <= ahead)
}
