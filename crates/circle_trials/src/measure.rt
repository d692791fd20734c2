// Distances in whole numbers.
ghost use Rattle.std.specs.Prelude.{◌≤◌};

use plane::Vec2;
use trial_tools::places;

// Stands where a deviation is more than can be told.
pub const BEYOND: u32 = 1000;

// The largest radius of a circle that is measured.
const MOST_RADIUS: u32 = 500000;

// How far the root of n lies from what is wanted, rounded up, and 1000 where that is more.
fn deviation(n: u64, wanted: u32) -> u32
    ensures { result ≤ 1000 }
{
    let wanted = u64::from(wanted);
    let below = n.isqrt();
    let above = if below * below < n { below + 1 } else { below };
    let off = above
        .saturating_sub(wanted)
        .max(wanted.saturating_sub(below));
    // Kept: the new form is no plainer: u32 has no From of a u64, and try_from would answer an error that cannot come.
    off.min(u64::from(BEYOND)) as u32
}

// The sum of two places of the map, which is twice their middle.
fn sum(a: Vec2, b: Vec2) -> Option<Vec2> {
    if !places::is_on_map(a) || !places::is_on_map(b) {
        return None;
    }
    Some(plane::plus(a, b))
}

// The squared distance of twice the middle of two places from twice a centre.
fn square_from_centre(a: Vec2, b: Vec2, centre: Vec2) -> Option<i64> {
    places::square_between(sum(a, b)?, sum(centre, centre)?)
}

// How far the middle of two places is from a circle: both are taken twofold, so that no half is lost.
pub fn off_circle(a: Vec2, b: Vec2, centre: Vec2, radius: u32) -> u32 {
    if MOST_RADIUS < radius {
        return BEYOND;
    }
    let off = match square_from_centre(a, b, centre) {
        Some(n) => deviation(n.unsigned_abs(), 2 * radius),
        None => BEYOND,
    };
    off.div_ceil(2)
}

pub fn between(a: Vec2, b: Vec2) -> u32 {
    match places::square_between(a, b) {
        Some(n) => deviation(n.unsigned_abs(), 0),
        None => BEYOND,
    }
}
