// From a job's bytes and the numbers of a rail to the list of its settings.
#![tactic(auto)]

ghost use Rattle.std.specs.Prelude.{◌≡◌};
ghost use Rattle.path.specs.Lent.{room_runs, SameLoans as SamePathLoans};
ghost use Rattle.reaches.specs.Lent.{room_reaches, SameLoans};
ghost use Rattle.offered.specs.Answers.{told_refusal, as_offered};
ghost use Rattle.offered.specs.Offered.{offered_of};
ghost use Rattle.offered.specs.Ranges.{ListIntoEnsures};
ghost use Rattle.offered.specs.Claims.{FirstBytes, RecordFirst};

use bogie::Rail;
use path::PathRoom;
use ranking::Shortlist;
use reaches::ReachRoom;
use refusal::{Fault, Refusal};
use told::{Numbered, Tell};

// The record's refusal, with the byte where the field starts; or the list's, which names none.
// Kept: the new form is no plainer: this is the error of a Result already, and its two kinds hold different values.
#[derive(Clone, Copy, PartialEq, Eq)]
pub enum OfferRefusal {
    Record(Refusal),
    List(Fault),
}

impl Tell<Numbered> for OfferRefusal {
    ghost told = { told_refusal };

    fn tell(self) -> Numbered {
        match self {
            OfferRefusal::Record(refused) => Numbered::At(refused.fault.number(), refused.place),
            OfferRefusal::List(fault) => Numbered::Alone(fault.number()),
        }
    }
}

// The job is read and walked at each setting on seven lent runs. A refused record writes nothing, and neither does a list refused before any walk.
pub fn list_into(
    bytes: &[u8],
    rail: Rail,
    path_room: &mut PathRoom,
    room: &mut ReachRoom,
) -> Result<Shortlist, OfferRefusal>
    ensures path_loans { SamePathLoans path_room.old path_room.new }
    ensures loans { SameLoans room.old room.new }
    ensures listed { ListIntoEnsures bytes.now rail
        (room_runs path_room.old)
        (room_reaches room.old)
        (as_offered result)
        (room_runs path_room.new)
        (room_reaches room.new) }
{
    match job_reader::read_job(bytes) {
        Ok(job) => bogie::list_settings(job, rail, path_room, room).map_err(OfferRefusal::List),
        Err(refusal) => Err(OfferRefusal::Record(refusal)),
    }
}

// The same on seven runs of its own, with room for any path, so that 21 never answers.
pub fn list_job(bytes: &[u8], rail: Rail) -> Result<Shortlist, OfferRefusal>
    ensures { as_offered result ≡ offered_of bytes.now rail }
{
    let mut path_room = PathRoom {
        xs: &mut [0i32; 2001],
        ys: &mut [0i32; 2001],
        gxs: &mut [0i32; 2001],
        gys: &mut [0i32; 2001],
    };
    let mut room = ReachRoom {
        left: &mut [0i32; 2001],
        right: &mut [0i32; 2001],
        marks: &mut [0u32; 2001],
    };
    list_into(bytes, rail, &mut path_room, &mut room)
}

// Claim: of a longer input the first 1,024 bytes decide the answer.
pub fn first_bytes()
    ensures { FirstBytes }
{}

// Claim: a record that is refused is told before anything else, and writes nothing.
pub fn record_first()
    ensures { RecordFirst }
{}
