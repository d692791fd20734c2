// The fields of a geometry: a mark, a type, a count, a coordinate, and a vertex.
ghost use Rattle.std.specs.Prelude.{◌≡◌, ◌+◌, leb};
ghost use Rattle.number.specs.Field.{within};
ghost use Rattle.number.specs.Answers.{as_part};
ghost use Rattle.kerb_reader.specs.Geometry.{header, coordinate, read_vertex};
ghost use Rattle.kerb_reader.specs.Inner.{HeaderWidth};

use metres::Vertex;
use number::{Cursor, Range};
use refusal::{Fault, Refusal};

// Whether n bytes from a position on are there, of so many.
fn has_bytes(size: usize, at: usize, n: usize) -> bool
    ensures { result ≡ leb (at + n) size }
{
    n <= size && at <= size - n
}

// A mark, type or count of n bytes in a range.
pub(crate) fn read_header(
    s: &[u8],
    c: Cursor,
    n: usize,
    range: Range,
) -> Result<(u32, Cursor), Refusal>
    requires { HeaderWidth n }
    ensures { as_part result ≡ header n (within range) s.now c.at }
{
    if !has_bytes(s.len(), c.at, n) {
        return Err(Fault::Geometry.at(c.at));
    }
    // Kept: the new form is no plainer: u32 has no From of a u64, and try_from would answer an error that cannot come.
    let v = metres::little_endian(s, c.at, n) as u32;
    if number::is_within(range, v) {
        Ok((v, Cursor { at: c.at + n }))
    } else {
        Err(Fault::Geometry.at(c.at))
    }
}

// A coordinate, finite and no larger than 15,000 m.
fn read_coordinate(s: &[u8], c: Cursor) -> Result<(f64, Cursor), Refusal>
    ensures { as_part result ≡ coordinate s.now c.at }
{
    if !has_bytes(s.len(), c.at, 8) {
        return Err(Fault::Geometry.at(c.at));
    }
    match metres::read_metres(s, c.at) {
        Some(x) if metres::within_limit(x) => Ok((x, Cursor { at: c.at + 8 })),
        _ => Err(Fault::Coordinate.at(c.at)),
    }
}

pub(crate) fn read_vertex(s: &[u8], c: Cursor) -> Result<(Vertex, Cursor), Refusal>
    ensures { as_part result ≡ read_vertex s.now c.at }
{
    let (x, after) = read_coordinate(s, c)?;
    let (y, next) = read_coordinate(s, after)?;
    Ok((Vertex { x, y }, next))
}
