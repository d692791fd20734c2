// A kerb's coordinate: eight bytes to a float, and a float's metres to ticks.
#![tactic(auto)]

ghost use Rattle.std.specs.Prelude.{◌≡◌, ◌/◌, ◌%◌, ◌^◌, length};
ghost use Rattle.metres.specs.Bytes.{Bytes, little_endian, metres_at};
ghost use Rattle.metres.specs.Answers.{as_metres};
ghost use Rattle.metres.specs.Tick.{metres_most, ticks_most, size_at_most, Sized, nearest_whole, tick_of, VertexWithin, vertex_ticks, TickRule};
ghost use Rattle.metres.specs.Worked.{WorkedTicks};

use plane::Vec2;

// The fields of a float's bits: the sign, an exponent below it, and digits below a leading one.
const SIGN: u64 = 1 << 63;

const LEADING: u64 = 1 << 52;

// The exponent that a NaN and the infinities have.
const NOT_FINITE: u64 = 0x7ff;

// The largest size of a coordinate in metres, and how many ticks a metre has.
const METRES_MOST: f64 = 15000.0;

const TICKS_A_METRE: f64 = 10000.0;

// A vertex as it was surveyed, in metres.
#[derive(Clone, Copy)]
pub struct Vertex {
    pub x: f64,
    pub y: f64,
}

// The number that n bytes make, lowest first.
pub fn little_endian(s: &[u8], at: usize, n: usize) -> u64
    requires { Bytes n at (length s.now) }
    ensures { result ≡ little_endian n s.now at }
{
    let mut bytes = [0u8; 8];
    bytes[..n].copy_from_slice(&s[at..at + n]);
    u64::from_le_bytes(bytes)
}

// The exponent's field of a float's bits.
fn exponent_of(bits: u64) -> u64
    ensures { result ≡ bits % 2 ^ 63 / 2 ^ 52 }
{
    bits % SIGN / LEADING
}

// The float that eight bytes hold, if it is finite. The bits are tested first: those of a NaN make no float.
pub fn read_metres(s: &[u8], at: usize) -> Option<f64>
    requires { Bytes 8 at (length s.now) }
    ensures { as_metres result ≡ metres_at s.now at }
{
    let bits = little_endian(s, at, 8);
    if exponent_of(bits) == NOT_FINITE {
        return None;
    }
    Some(f64::from_bits(bits))
}

// Whether a coordinate is no larger than 15,000 m in size.
pub fn within_limit(x: f64) -> bool
    ensures { result ≡ size_at_most metres_most x }
{
    x.abs() <= METRES_MOST
}

// The whole number nearest to p: its digits over a power of two, divided as every figure is.
// Kept: a rule of the project needs it: one rule says where a half goes, that of `exact::nearest` (docs/DECISIONS.md, Kerbs), and `p.round()` would be a second.
fn nearest_whole(p: f64) -> i64
    requires { Sized ticks_most p }
    ensures { result ≡ nearest_whole p }
{
    let bits = p.to_bits();
    let exponent = exponent_of(bits);
    // far below a half, where the power of two would not fit
    if exponent < 1013 {
        return 0;
    }
    // Kept: the new form is no plainer: i64 has no From of a u64, and `cast_signed` says no more than the cast.
    let digits = (LEADING + bits % LEADING) as i64;
    let unit = (1u64 << (1075 - exponent)) as i64;
    if bits < SIGN {
        exact::nearest(digits, unit)
    } else {
        exact::nearest(-digits, unit)
    }
}

// A coordinate's tick: one product, rounded by the float unit, then the nearest whole number.
fn to_tick(x: f64) -> i64
    requires { Sized metres_most x }
    ensures { result ≡ tick_of x }
{
    nearest_whole(x * TICKS_A_METRE)
}

// A vertex's ticks.
pub fn ticks_of(v: Vertex) -> Vec2
    requires { VertexWithin v }
    ensures { result ≡ vertex_ticks v }
{
    Vec2 {
        x: to_tick(v.x),
        y: to_tick(v.y),
    }
}

// Claim: a tick is the nearest whole number to the rounded product, halves away from zero, and at most 150,000,000 in size.
pub fn tick_rule()
    ensures { TickRule }
{}

// Claim: the ticks of six coordinates, by computing.
pub fn worked_ticks()
    ensures { WorkedTicks }
{}
