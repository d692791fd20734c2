// A kerb's geometry, from its bytes to ticks: fields in order; within one, that its bytes are there, then what it may hold.
#![tactic(auto)]

mod fields;
mod shapes;
mod writing;

ghost use Rattle.std.specs.Prelude.{◌≡◌, length};
ghost use Rattle.kerb_reader.specs.Geometry.{read_geometry};
ghost use Rattle.kerb_reader.specs.Ticks.{KerbEnsures};
ghost use Rattle.kerb_reader.specs.Answers.{as_geometry, told_refusal};
ghost use Rattle.kerb_reader.specs.Claims.{KerbWithinLimits, FirstBytes};
ghost use Rattle.kerb_reader.specs.Worked.{WorkedGeometries};
ghost use Rattle.kerb_reader.specs.declared.KerbRefusal.TheVariants.{Field};

use metres::Vertex;
use refusal::{Fault, Refusal};
use told::{Numbered, Tell};

// What was surveyed: a point with its coordinates, or a line with its first vertex and its number of vertices.
#[derive(Clone, Copy)]
pub enum Geometry {
    Point(f64, f64),
    Line(Vertex, usize),
}

// A geometry, with the vertices of a line beside it.
// Kept: a rule of the project (fixed memory) needs it, so there is room for the most vertices that a line has.
#[derive(Clone, Copy)]
pub struct Survey {
    pub geometry: Geometry,
    pub vertices: [Vertex; 500],
}

// Why a kerb is turned down: by a field of its geometry, or since the lent runs have no room for its vertices.
// Kept: the new form is no plainer: an Option of a refusal would say None where there is one, for want of room.
#[derive(Clone, Copy, PartialEq, Eq)]
pub enum KerbRefusal {
    Field(Refusal),
    NoRoom,
}

impl From<Refusal> for KerbRefusal {
    ghost from_gives = { λ r e. e ≡ Field r };

    fn from(r: Refusal) -> KerbRefusal {
        KerbRefusal::Field(r)
    }
}

impl Tell<Numbered> for KerbRefusal {
    ghost told = { told_refusal };

    fn tell(self) -> Numbered {
        match self {
            KerbRefusal::Field(refused) => Numbered::At(refused.fault.number(), refused.place),
            KerbRefusal::NoRoom => Numbered::Alone(Fault::RunTooShort.number()),
        }
    }
}

// The geometry that the bytes are, with each vertex as its two floats; or why they are turned down, 12 or 13, and the byte where the field starts.
pub fn read_geometry(bytes: &[u8]) -> Result<Survey, Refusal>
    ensures { as_geometry (length bytes.now) result ≡ read_geometry bytes.now }
{
    let (survey, end) = shapes::read_survey(bytes)?;
    if end.at == bytes.len() {
        Ok(survey)
    } else {
        Err(Fault::Geometry.at(end.at))
    }
}

// The ticks of a kerb's vertices are written into two lent runs, once the whole geometry has been read; a refusal writes nothing.
pub fn read_kerb(bytes: &[u8], xs: &mut [i32], ys: &mut [i32]) -> Result<usize, KerbRefusal>
    ensures { KerbEnsures bytes.now xs.old ys.old result xs.new ys.new }
{
    let survey = read_geometry(bytes)?;
    writing::write_survey(&survey, xs, ys)
}

// Claim: a kerb that was read has 1 to 500 vertices, and no tick written is larger than 150,000,000 in size.
pub fn kerb_within_limits()
    ensures { KerbWithinLimits }
{}

// Claim: the first 8,010 bytes decide the answer, and a refusal is 12 or 13, placed at byte 8,009 at most.
pub fn first_bytes()
    ensures { FirstBytes }
{}

// Claim: seven geometries by their bytes, and what is read of them.
pub fn worked_geometries()
    ensures { WorkedGeometries }
{}
