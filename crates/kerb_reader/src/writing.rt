// The ticks of a survey, written into two lent runs.
ghost use Rattle.std.specs.Prelude.{◌≡◌};
ghost use Rattle.kerb_reader.specs.Inner.{first_of, count_of, Writable, VertexWritten, VerticesWritable, VerticesWritten, SurveyWithin, SurveyWritten};

use crate::{Geometry, KerbRefusal, Survey};
use metres::Vertex;

impl Geometry {
    fn first(self) -> Vertex
        ensures { result ≡ first_of self }
    {
        match self {
            Geometry::Point(x, y) => Vertex { x, y },
            Geometry::Line(first, _) => first,
        }
    }

    fn count(self) -> usize
        ensures { result ≡ count_of self }
    {
        match self {
            Geometry::Point(..) => 1,
            Geometry::Line(_, count) => count,
        }
    }
}

// One vertex's ticks.
fn write_vertex(v: Vertex, i: usize, xs: &mut [i32], ys: &mut [i32])
    requires { Writable v i xs.old ys.old }
    ensures { VertexWritten v i xs.old ys.old xs.new ys.new }
{
    let tick = metres::ticks_of(v);
    xs[i] = tick.x as i32;
    ys[i] = tick.y as i32;
}

// The first vertex's ticks, then those of the others.
fn write_vertices(first: Vertex, others: &[Vertex], xs: &mut [i32], ys: &mut [i32])
    requires { VerticesWritable first others.now xs.old ys.old }
    ensures { VerticesWritten first others.now xs.old ys.old xs.new ys.new }
{
    write_vertex(first, 0, xs, ys);
    for (i, v) in others.iter().enumerate() {
        write_vertex(*v, i + 1, xs, ys);
    }
}

pub(crate) fn write_survey(
    survey: &Survey,
    xs: &mut [i32],
    ys: &mut [i32],
) -> Result<usize, KerbRefusal>
    requires { SurveyWithin survey.now }
    ensures { SurveyWritten survey.now xs.old ys.old result xs.new ys.new }
{
    let count = survey.geometry.count();
    if xs.len() < count || ys.len() < count {
        return Err(KerbRefusal::NoRoom);
    }
    write_vertices(survey.geometry.first(), &survey.vertices[1..count], xs, ys);
    Ok(count)
}
