// Every end of the field table and one beyond it, each in a record that is right in all other fields: read, and written back where it is accepted.
// The cases stand on standard input, one to a line.
#![tactic(auto)]

mod cases;
mod records;

use crate::cases::Table;
use crate::records::Case;
use job::Job;
use refusal::Fault;
use trial_tools::counts::Count;
use trial_tools::tables;

// No record of the table fits 20 bytes: 28, and nothing is written.
fn has_no_room(j: Job) -> bool {
    let mut run = [7u8; 20];
    let wrote = job_writer::write_job(j, &mut run);
    matches!(wrote, Err(Fault::NoRoom)) && run == [7; 20]
}

// The job is written as the bytes that it was read from, and the byte after them stays.
fn writes_back(j: Job, bytes: &[u8]) -> bool {
    let mut run = [7u8; 1024];
    let Ok(n) = job_writer::write_job(j, &mut run) else {
        return false;
    };
    n == bytes.len() && run.starts_with(bytes) && run.get(n) == Some(&7)
}

// Read as the case says, and written back where it is accepted.
fn holds(c: Case) -> bool {
    let record = records::record_of(c);
    match job_reader::read_job(record.bytes()) {
        Ok(job) => c.number == 0 && has_no_room(job) && writes_back(job, record.bytes()),
        Err(refusal) => {
            u32::from(refusal.fault.number()) == c.number && refusal.place == record.place
        }
    }
}

// How many cases are tried at most.
const MOST_CASES: u64 = 200;

// The cases are numbered from 1; one that is cut short ends in zeros.
fn try_cases(table: &[u8]) -> Count {
    let mut count = Count::default();
    let mut table = Table::of(table);
    for number in 1..=MOST_CASES {
        if table.is_read() {
            break;
        }
        count.enter(number, holds(table.case()).then_some(()));
    }
    count
}

fn main(rt: HostRuntime) {
    let mut table = [0u8; 65536];
    let length = tables::read_full(&mut rt.reader(), &mut table);
    let count = try_cases(&table[..length]);
    let right = count.right;
    let all = count.all;
    let _written = println!(&rt; "{right} of {all} ends of the field table hold");
}
