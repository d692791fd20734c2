// Writing a job: its faults first, then the room, then its one encoding.
#![tactic(auto)]

mod encode;

ghost use Rattle.job_writer.specs.Answers.{WriteEnsures};
ghost use Rattle.job_writer.specs.Claims.{OneEncoding, RecordLength};

pub use encode::Encoded;
use job::Job;
use refusal::Fault;

// Writes a job at the start of the run and answers the number of its bytes; those after it stay, and a refusal (3 to 9, then 28) writes nothing.
pub fn write_job(j: Job, run: &mut [u8]) -> Result<usize, Fault>
    ensures { WriteEnsures j run.old result run.new }
{
    job::judge(j)?;
    let e = encode::encode_job(j);
    let n = e.at;
    if run.len() < n {
        return Err(Fault::NoRoom);
    }
    run[..n].copy_from_slice(&e.bytes[..n]);
    Ok(n)
}

// Each job has one encoding, as the reader and the writer ensure it. (A claim: it runs nothing.)
pub fn one_encoding()
    ensures { OneEncoding }
{}

// An accepted job is under 520 bytes, and the first 1,024 bytes of any input decide the answer. (A claim: it runs nothing.)
pub fn record_length()
    ensures { RecordLength }
{}
