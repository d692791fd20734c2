// The lowest point whose move touches a kerb, segment by segment.
ghost use Rattle.std.specs.Prelude.{◌≡◌, length};
ghost use Rattle.kerb_line.specs.Kerb.{vertex_at, vertices};
ghost use Rattle.kerb_line.specs.Lent.{runs_of};
ghost use Rattle.kerb_line.specs.Contact.{segments};
ghost use Rattle.kerb_line.specs.Requires.{Meetable};
ghost use Rattle.kerb_line.specs.Inner.{VertexLent, segments_after, LowestOf, move_touches, move_touches_one, Testable};

use crate::Kerb;
use crate::bounds::Bounds;
use plane::Vec2;

// A vertex of the kerb, wide.
fn vertex_at(kerb: Kerb, i: usize) -> Vec2
    requires { VertexLent i (runs_of kerb) }
    ensures { result ≡ vertex_at (runs_of kerb.entry) i }
{
    Vec2 {
        x: i64::from(kerb.xs[i]),
        y: i64::from(kerb.ys[i]),
    }
}

// The lowest of these points whose move touches the segment from v to w.
// Kept: two slices, for the reason given in `lowest_touch`.
fn lowest_of(olds: &[Vec2], news: &[Vec2], v: Vec2, w: Vec2) -> Option<usize>
    requires { Testable olds.now news.now v w }
    ensures { LowestOf (length olds.now) (move_touches olds.now news.now v w) result }
{
    for (p, old) in olds.iter().enumerate() {
        if touching::touches(*old, news[p], v, w) {
            return Some(p);
        }
    }
    None
}

// The lowest point whose move touches a segment between two vertices.
// Only points below the lowest so far are tested, and none where the segment lies beyond all moves.
// Kept: two slices, for the reason given in `lowest_touch`.
fn lowest_along(olds: &[Vec2], news: &[Vec2], kerb: Kerb) -> Option<usize>
    requires { Meetable olds.now news.now kerb.count (runs_of kerb) }
    ensures { LowestOf (length olds.now) (move_touches_one olds.now news.now (segments_after 0 kerb.entry.count (runs_of kerb.entry))) result }
{
    let bounds = Bounds::of_moves(olds, news);
    let mut lowest = None;
    let mut v = vertex_at(kerb, 0);
    for i in 1..kerb.count {
        let w = vertex_at(kerb, i);
        if !bounds.beyond(v, w) {
            let below = lowest.unwrap_or(olds.len());
            lowest = lowest_of(&olds[..below], &news[..below], v, w).or(lowest);
        }
        v = w;
    }
    lowest
}

// The lowest point whose move touches the kerb; a single vertex is a segment of no length.
// Kept: two slices, for the reason given in `lowest_touch`.
pub(crate) fn lowest(olds: &[Vec2], news: &[Vec2], kerb: Kerb) -> Option<usize>
    requires { Meetable olds.now news.now kerb.count (runs_of kerb) }
    ensures { LowestOf (length olds.now) (move_touches_one olds.now news.now (segments (vertices kerb.entry.count (runs_of kerb.entry)))) result }
{
    if kerb.count == 1 {
        let v = vertex_at(kerb, 0);
        return lowest_of(olds, news, v, v);
    }
    lowest_along(olds, news, kerb)
}
