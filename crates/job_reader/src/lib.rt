// Reading a job: fields in order; within one, that it ends and is in shortest form, then its range.
#![tactic(auto)]

mod body;
mod elements;
mod fields;
mod first;
mod units;

ghost use Rattle.job_reader.specs.Answers.{ReadEnsures};

use job::Job;
use number::Cursor;
use refusal::{Fault, Refusal};

// The job that the bytes are, or why they are turned down: 1 to 10, and the byte where the field starts.
pub fn read_job(s: &[u8]) -> Result<Job, Refusal>
    ensures { ReadEnsures s.now result }
{
    let (vehicle, c1) = units::read_vehicle(s, Cursor { at: 0 })?;
    let (start, c2) = elements::read_start(s, c1)?;
    let (job, end) = elements::read_path(s, c2, vehicle, start)?;
    if end.at == s.len() {
        return Ok(job);
    }
    Err(Fault::LeftOver.at(end.at))
}
