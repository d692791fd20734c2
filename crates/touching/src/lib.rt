// Whether two closed segments touch or cross, exactly.
#![tactic(auto)]

ghost use Rattle.std.specs.Prelude.{◌≡◌};
ghost use Rattle.plane.specs.Vector.{right_normal, Moderate};
ghost use Rattle.touching.specs.Touch.{ranges_meet, overlap as overlap_z, touches as touches_z, Sighted, Touchable, TouchRule};

use plane::Vec2;

// Whether the ranges between a and b and between c and d have a number in common.
fn ranges_meet(a: i64, b: i64, c: i64, d: i64) -> bool
    ensures { result ≡ ranges_meet a b c d }
{
    a.min(b) <= c.max(d) && c.min(d) <= a.max(b)
}

fn right_normal(v: Vec2) -> Vec2
    requires { Moderate v }
    ensures { result ≡ right_normal v }
{
    Vec2 { x: v.y, y: -v.x }
}

// Whether the segments ab and cd overlap, seen along m.
fn overlap(m: Vec2, a: Vec2, b: Vec2, c: Vec2, d: Vec2) -> bool
    requires { Sighted m a b c d }
    ensures { result ≡ overlap_z m a b c d }
{
    ranges_meet(
        plane::dot(m, a),
        plane::dot(m, b),
        plane::dot(m, c),
        plane::dot(m, d),
    )
}

// The test itself, by products.
fn touches_near(a: Vec2, b: Vec2, c: Vec2, d: Vec2) -> bool
    requires { Touchable a b c d }
    ensures { result ≡ touches_z a b c d }
{
    let across_ab = right_normal(plane::minus(b, a));
    let across_cd = right_normal(plane::minus(d, c));
    let from_a_to_c = plane::minus(c, a);
    overlap(across_ab, a, b, c, d)
        && overlap(across_cd, a, b, c, d)
        && overlap(from_a_to_c, a, b, c, d)
}

// Whether the segments ab and cd have a point in common; end points count, and either may be a single point.
// Comparisons alone tell of most segments that lie apart: no product is made for them.
pub fn touches(a: Vec2, b: Vec2, c: Vec2, d: Vec2) -> bool
    requires { Touchable a b c d }
    ensures { result ≡ touches_z a b c d }
{
    ranges_meet(a.x, b.x, c.x, d.x) && ranges_meet(a.y, b.y, c.y, d.y) && touches_near(a, b, c, d)
}

// Claim: two segments touch exactly where some point lies on both.
pub fn touch_rule()
    ensures { TouchRule }
{}
