// The heading of the path, turned step by step.
#![tactic(auto)]

ghost use Rattle.std.specs.Prelude.{◌≡◌};
ghost use Rattle.job.specs.Curves.{radius_of, radius_allowed};
ghost use Rattle.refusal.specs.Numbers.{as_answer};
ghost use Rattle.heading.specs.Turn.{turned_by, Tangent, heading_after, move_of, ArcRule, TangentRule};
ghost use Rattle.heading.specs.PathTurn.{advance_of, path_turn, Steerable, Movable};

use job::{Curve, Side};
use number::Range;
use plane::Vec2;
use refusal::Fault;

// The steps that the path turn takes by itself.
const STEP_ALONE: Range = Range {
    least: 1,
    most: 20000,
};

// The heading after a step, and the move along the path.
#[derive(Clone, Copy, PartialEq, Eq)]
pub struct Advance {
    pub heading: Vec2,
    pub shift: Vec2,
}

// g turned to the right by the half-angle tangent p / q.
fn turn_heading(g: Vec2, p: i64, q: i64) -> Vec2
    requires { Tangent g p q }
    ensures { result ≡ turned_by g p q }
{
    let a = q * q - p * p;
    let b = 2 * p * q;
    let w = Vec2 {
        x: g.x * a + g.y * b,
        y: g.y * a + -g.x * b,
    };
    plane::draw(w, q * q + p * p, 1000000)
}

// The heading after a step of length s on radius r, where r is 0 on a straight.
fn heading_after(g: Vec2, s: i64, r: i64) -> Vec2
    requires { Steerable g s r }
    ensures { result ≡ heading_after g s r }
{
    if 0 < r {
        return turn_heading(g, s, 2 * r);
    }
    if r < 0 {
        return turn_heading(g, -s, 2 * -r);
    }
    g
}

// The move along the path between the headings g and h.
fn move_along(g: Vec2, h: Vec2, s: i64) -> Vec2
    requires { Movable g h s }
    ensures { result ≡ move_of g h s }
{
    plane::scaled(plane::plus(g, h), s, 2000000)
}

// A step of length s on radius r from the heading g.
pub fn path_step(g: Vec2, s: i64, r: i64) -> Advance
    requires { Steerable g s r }
    ensures { result ≡ advance_of g s r }
{
    let heading = heading_after(g, s, r);
    let shift = move_along(g, heading, s);
    Advance { heading, shift }
}

// The signed radius of a curve, 0 for a straight.
pub fn radius_of(curve: Curve) -> i64
    ensures { result ≡ radius_of curve }
{
    match curve {
        Curve::Straight => 0,
        Curve::Arc(Side::Right, radius) => i64::from(radius),
        Curve::Arc(Side::Left, radius) => -i64::from(radius),
    }
}

// Claim: the exact turn by p / q keeps the length, and the tangent of half its angle is p / q.
pub fn tangent_rule()
    ensures { TangentRule }
{}

// Claim: on an arc the heading turns by the half-angle tangent s / (2|r|).
pub fn arc_rule()
    ensures { ArcRule }
{}

// Whether a signed radius is 0 or of a size from 20,000 to 1,000,000.
fn radius_allowed(r: i32) -> bool
    ensures { result ≡ radius_allowed r }
{
    r == 0 || number::is_within(job::RADIUS, r.unsigned_abs())
}

// The path turn, called by itself: the heading g after a step of length s on the signed radius r, and the move.
pub fn turn_path(g: Vec2, s: u32, r: i32) -> Result<Advance, Fault>
    ensures { as_answer result ≡ path_turn g s r }
{
    if !plane::has_length(g, 1000000) {
        return Err(Fault::Start);
    }
    if !number::is_within(STEP_ALONE, s) {
        return Err(Fault::Step);
    }
    if !radius_allowed(r) {
        return Err(Fault::Element);
    }
    Ok(path_step(g, i64::from(s), i64::from(r)))
}
