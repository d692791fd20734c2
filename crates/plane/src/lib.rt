// Vectors in the plane, and the one way in which a turned vector is drawn.
#![tactic(auto)]

ghost use Rattle.std.specs.Prelude.{◌≡◌, pos, length, get_or, set};
ghost use Rattle.exact.specs.Nearest.{Divisor};
ghost use Rattle.plane.specs.Vector.{dot as dot_z, plus as plus_z, minus as minus_z, times, nearest_v, BothModerate, Scalable};
ghost use Rattle.plane.specs.Length.{in_box, has_length, Nominal};
ghost use Rattle.plane.specs.Settle.{settle_z, Settleable};
ghost use Rattle.plane.specs.Drawn.{drawn, Drawable, DrawnRule};
ghost use Rattle.plane.specs.Run.{Entry, Stored};

#[derive(Clone, Copy, PartialEq, Eq)]
pub struct Vec2 {
    pub x: i64,
    pub y: i64,
}

pub fn dot(a: Vec2, b: Vec2) -> i64
    requires { BothModerate a b }
    ensures { result ≡ dot_z a b }
{
    a.x * b.x + a.y * b.y
}

pub fn plus(a: Vec2, b: Vec2) -> Vec2
    requires { BothModerate a b }
    ensures { result ≡ plus_z a b }
{
    Vec2 {
        x: a.x + b.x,
        y: a.y + b.y,
    }
}

pub fn minus(a: Vec2, b: Vec2) -> Vec2
    requires { BothModerate a b }
    ensures { result ≡ minus_z a b }
{
    Vec2 {
        x: a.x - b.x,
        y: a.y - b.y,
    }
}

// v / d, nearest by coordinate.
pub fn nearest_vector(v: Vec2, d: i64) -> Vec2
    requires { Divisor d }
    ensures { result ≡ nearest_v v d }
{
    Vec2 {
        x: exact::nearest(v.x, d),
        y: exact::nearest(v.y, d),
    }
}

// v × n / q, nearest by coordinate.
pub fn scaled(v: Vec2, n: i64, q: i64) -> Vec2
    requires { Scalable v n q }
    ensures { result ≡ nearest_v (times v n) q }
{
    nearest_vector(
        Vec2 {
            x: v.x * n,
            y: v.y * n,
        },
        q,
    )
}

// Whether no coordinate of v is larger than k, whatever v and k are.
pub fn in_box(v: Vec2, k: i64) -> bool
    ensures { result ≡ in_box v k }
{
    let most = k.unsigned_abs();
    v.x.unsigned_abs() <= most && v.y.unsigned_abs() <= most
}

// Whether |v|² differs from k² by at most 2k, for any v: a coordinate beyond k is told before it is squared.
pub fn has_length(v: Vec2, k: i64) -> bool
    requires { Nominal k }
    ensures { result ≡ has_length v k }
{
    if !in_box(v, k) {
        return false;
    }
    dot(v, v).abs_diff(k * k) <= 2 * k.unsigned_abs()
}

// v, which is nearly k long, settled to length k.
pub fn settle(v: Vec2, k: i64) -> Vec2
    requires { Settleable v k }
    ensures { result ≡ settle_z v k }
{
    let square = k * k;
    scaled(v, 3 * square - dot(v, v), 2 * square)
}

// The exact turn w / q, rounded and settled to length k.
pub fn draw(w: Vec2, q: i64, k: i64) -> Vec2
    requires { Drawable w q k }
    ensures { result ≡ drawn w q k }
{
    settle(nearest_vector(w, q), k)
}

// Claim: whatever is turned exactly and drawn keeps its length, lies within two ticks of the exact line, and on its side.
pub fn drawn_rule()
    ensures { DrawnRule }
{}

// An entry of a run, wide.
// Kept: it is open to callers, who may count on it.
pub fn get(s: &[i32], i: usize) -> i64
    requires { Entry i (length s.now) }
    ensures { result ≡ get_or s.now i (pos 0) }
{
    i64::from(s[i])
}

// An entry of a run is set.
// Kept: as `get` is.
pub fn put(s: &mut [i32], i: usize, v: i64)
    requires { Stored i (length s.old) v }
    ensures { s.new ≡ set s.old i v }
{
    s[i] = v as i32;
}
