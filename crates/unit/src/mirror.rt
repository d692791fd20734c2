// The mirror image of a unit: its new direction, before it is settled to its length.
// The counter terminals multiply only two numbers of 32 bits in one go (02, N2), so `product` holds the only multiplication, and all others are put together from it.
ghost use Rattle.std.specs.Prelude.{◌≡◌, ◌*◌, ◌-ℤ◌, ◌*ℤ◌};
ghost use Rattle.plane.specs.Vector.{dot as dot_z};
ghost use Rattle.unit.specs.Turn.{mirrored, Mirrorable};
ghost use Rattle.unit.specs.Products.{LongProduct, SizeOfProduct, LongFactors, Dotted, Imaged};

use plane::Vec2;

fn product(a: u32, b: u32) -> u64
    ensures { result ≡ a * b }
{
    u64::from(a) * u64::from(b)
}

// a × b, where b may be longer than 32 bits: it goes in two parts, and their products are put together.
fn long_product(a: u32, b: u64) -> u64
    requires { LongProduct a b }
    ensures { result ≡ a * b }
{
    // Kept: the new form is no plainer: u32 has no From of a u64, and try_from would answer an error that cannot come.
    let high = (b >> 32) as u32;
    let low = (b % 4294967296) as u32;
    (product(a, high) << 32) + product(a, low)
}

// n, the product of the sizes of a and b, with the sign of a × b.
fn with_sign(n: u64, a: i64, b: i64) -> i64
    requires { SizeOfProduct n a b }
    ensures { result ≡ a *ℤ b }
{
    // Kept: a rule of the project needs it: the search for multiplications (02, N2) follows casts, and no method.
    let positive = n as i64;
    if (a < 0) == (b < 0) {
        return positive;
    }
    -positive
}

// a × b, where b may be longer than 32 bits.
fn long_times(a: i64, b: i64) -> i64
    requires { LongFactors a b }
    ensures { result ≡ a *ℤ b }
{
    // Kept: the cast, for the reason given in `long_product`.
    let n = long_product(a.unsigned_abs() as u32, b.unsigned_abs());
    with_sign(n, a, b)
}

// a · b by short products.
// Kept: a rule of the project needs it: the counter terminals cannot do the wide products of `plane::dot` in one go (02, N2).
fn dot(a: Vec2, b: Vec2) -> i64
    requires { Dotted a b }
    ensures { result ≡ dot_z a b }
{
    long_times(a.x, b.x) + long_times(a.y, b.y)
}

// A coordinate of 2(m·d)m − |m|²d, from those of m and d.
fn image_coordinate(m: i64, along: i64, d: i64, mm: i64) -> i64
    requires { Imaged m along d mm }
    ensures { result ≡ m *ℤ along -ℤ d *ℤ mm }
{
    long_times(m, along) - long_times(d, mm)
}

// d mirrored in the line along m = 2d + f, nearest by coordinate.
pub(crate) fn mirrored_vector(d: Vec2, f: Vec2) -> Vec2
    requires { Mirrorable d f }
    ensures { result ≡ mirrored d f }
{
    let m = Vec2 {
        x: d.x + d.x + f.x,
        y: d.y + d.y + f.y,
    };
    let md = dot(m, d);
    let along = md + md;
    let mm = dot(m, m);
    let w = Vec2 {
        x: image_coordinate(m.x, along, d.x, mm),
        y: image_coordinate(m.y, along, d.y, mm),
    };
    plane::nearest_vector(w, mm)
}
