// A point and a line, with their vertices, after the mark and the type.
ghost use Rattle.std.specs.Prelude.{◌≡◌};
ghost use Rattle.number.specs.Answers.{as_part};
ghost use Rattle.kerb_reader.specs.Geometry.{no_vertices, read_vertices, read_point, read_line, read_survey};
ghost use Rattle.kerb_reader.specs.Inner.{CountInUse};

use crate::{Geometry, Survey, fields};
use metres::Vertex;
use number::{Cursor, Range};
use refusal::Refusal;

// The byte-order mark of little-endian bytes, the types of a point and of a line, and how many vertices a line has.
const MARK: Range = Range { least: 1, most: 1 };

const TYPE: Range = Range { least: 1, most: 2 };

const COUNT: Range = Range {
    least: 2,
    most: 500,
};

fn empty_vertices() -> [Vertex; 500]
    ensures { result ≡ no_vertices }
{
    [Vertex { x: 0.0, y: 0.0 }; 500]
}

fn read_vertices(s: &[u8], c: Cursor, count: usize) -> Result<([Vertex; 500], Cursor), Refusal>
    requires { CountInUse count }
    ensures { as_part result ≡ read_vertices count s.now c.at }
{
    let mut vertices = empty_vertices();
    let mut at = c;
    for vertex in vertices[..count].iter_mut() {
        let (v, next) = fields::read_vertex(s, at)?;
        *vertex = v;
        at = next;
    }
    Ok((vertices, at))
}

fn read_point(s: &[u8], c: Cursor) -> Result<(Survey, Cursor), Refusal>
    ensures { as_part result ≡ read_point s.now c.at }
{
    let (v, next) = fields::read_vertex(s, c)?;
    let vertices = empty_vertices();
    let geometry = Geometry::Point(v.x, v.y);
    Ok((Survey { geometry, vertices }, next))
}

fn read_line(s: &[u8], c: Cursor) -> Result<(Survey, Cursor), Refusal>
    ensures { as_part result ≡ read_line s.now c.at }
{
    let (n, after) = fields::read_header(s, c, 4, COUNT)?;
    // Kept: the new form is no plainer: usize has no From of a u32, and try_from would answer an error that cannot come.
    let count = n as usize;
    let (vertices, next) = read_vertices(s, after, count)?;
    let geometry = Geometry::Line(vertices[0], count);
    Ok((Survey { geometry, vertices }, next))
}

pub(crate) fn read_survey(s: &[u8]) -> Result<(Survey, Cursor), Refusal>
    ensures { as_part result ≡ read_survey s.now 0 }
{
    let (_, after_mark) = fields::read_header(s, Cursor { at: 0 }, 1, MARK)?;
    let (kind, after_type) = fields::read_header(s, after_mark, 4, TYPE)?;
    // Kept: the new form is no plainer: the type is used where it is read, and an enum of it would be made by one match to be taken apart by another.
    if kind == 1 {
        read_point(s, after_type)
    } else {
        read_line(s, after_type)
    }
}
