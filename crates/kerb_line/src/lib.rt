// A kerb in two lent runs of ticks, and the lowest point of a rig whose move touches it.
#![tactic(auto)]

mod bounds;
mod moves;

ghost use Rattle.std.specs.Prelude.{◌≡◌};
ghost use Rattle.kerb_line.specs.Kerb.{vertices, kerb_lent, vertex_sound, kerb_sound};
ghost use Rattle.kerb_line.specs.Lent.{runs_of};
ghost use Rattle.kerb_line.specs.Contact.{lowest_touch};
ghost use Rattle.kerb_line.specs.Requires.{Lent, Meetable};

use plane::Vec2;

// A kerb in two lent runs: how many vertices it has, and how far east and how far north each lies.
#[derive(Clone, Copy)]
pub struct Kerb<'a> {
    pub count: usize,
    pub xs: &'a [i32],
    pub ys: &'a [i32],
}

// 21 for the kerb: from 1 to 500 vertices, and each of its two runs has as many.
#[tactic(auto, unfolding(crate::specs::Kerb::kerb_lent))]
pub fn kerb_lent(kerb: Kerb) -> bool
    ensures { result ≡ kerb_lent kerb.entry.count (runs_of kerb.entry) }
{
    let n = kerb.count;
    ((1 <= n) & (n <= 500)) & ((n <= kerb.xs.len()) & (n <= kerb.ys.len()))
}

// The largest size of a coordinate that a station may have.
const COORDINATE: u32 = 150_000_000;

// Whether a vertex lies where a station may.
fn vertex_sound(x: i32, y: i32) -> bool
    ensures { result ≡ vertex_sound (record { x = x; y = y }) }
{
    x.unsigned_abs() <= COORDINATE && y.unsigned_abs() <= COORDINATE
}

// 26 for the kerb: every vertex lies where a station may.
pub fn kerb_sound(kerb: Kerb) -> bool
    requires { Lent kerb.count (runs_of kerb) }
    ensures { result ≡ kerb_sound kerb.entry.count (runs_of kerb.entry) }
{
    let n = kerb.count;
    kerb.xs[..n]
        .iter()
        .zip(&kerb.ys[..n])
        .all(|(x, y)| vertex_sound(*x, *y))
}

// The lowest of the points whose move touches or crosses a segment of the kerb, if one does.
// Kept: the new form is no plainer: a struct of the two slices would be built for this call alone, and taken apart where a move is tested.
pub fn lowest_touch(olds: &[Vec2], news: &[Vec2], kerb: Kerb) -> Option<usize>
    requires { Meetable olds.now news.now kerb.count (runs_of kerb) }
    ensures { result ≡ lowest_touch olds.now news.now (vertices kerb.entry.count (runs_of kerb.entry)) }
{
    moves::lowest(olds, news, kerb)
}
