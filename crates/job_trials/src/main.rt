// Sweeps every job of two tables and compares what is printed with what should be. A line has a job's bytes in hexadecimal digits ("-" for none),
// a space, and the text, with "/" for each line feed.
#![tactic(auto)]

ghost use Rattle.std.specs.Prelude.{◌<◌, IfSome};

use answer_text::Text;
use std::rt::Files;
use std::str;
use trial_tools::counts::Count;
use trial_tools::reading::content;
use trial_tools::tables;

// Room for some bytes more than the longest job of the tables has.
const JOB_ROOM: usize = 1100;

// The value of a hexadecimal digit.
fn digit(b: u8) -> Option<u8>
    ensures { IfSome result (λ d. d < 16) }
{
    match b {
        b'0'..=b'9' => Some(b - b'0'),
        b'a'..=b'f' => Some(b - b'a' + 10),
        _ => None,
    }
}

// The bytes that the digits are, in the room lent; a minus alone stands for no bytes.
fn decode<'r>(digits: &[u8], room: &'r mut [u8]) -> Option<&'r [u8]> {
    if digits == b"-".as_slice() {
        return room.get(..0);
    }
    let (pairs, rest) = digits.as_chunks::<2>();
    if !rest.is_empty() {
        return None;
    }
    let bytes = room.get_mut(..pairs.len())?;
    for (byte, [high, low]) in bytes.iter_mut().zip(pairs) {
        *byte = digit(*high)? * 16 + digit(*low)?;
    }
    Some(bytes)
}

// A byte of the table's text, as it is printed.
// Kept: the new form is no plainer: this is a byte of a text, and no number for a kind.
fn printed(b: u8) -> u8 {
    if b == b'/' { b'\n' } else { b }
}

fn reads_as(text: Text, wanted: &[u8]) -> Option<()> {
    let bytes = text.bytes.get(..text.length)?;
    let same = bytes.len() == wanted.len()
        && bytes.iter().zip(wanted).all(|(b, w)| *b == printed(*w));
    same.then_some(())
}

// Something, where the line's job prints what it should.
fn try_line(line: &[u8]) -> Option<()> {
    let (digits, wanted) = str::from_utf8(content(line)).ok()?.split_once(' ')?;
    let mut room = [0u8; JOB_ROOM];
    let job = decode(digits.as_bytes(), &mut room)?;
    reads_as(
        answer_text::text_of(swept::sweep_job(job)),
        wanted.as_bytes(),
    )
}

// Each line that does not hold is named. What cannot be written is lost: a trial has nowhere else to tell it.
fn try_lines(rt: &impl Print, text: &[u8]) -> Count {
    let mut count = Count::default();
    for (number, line) in (1u64..).zip(text.split_inclusive(|b| *b == b'\n')) {
        let answer = try_line(line);
        if answer.is_none() {
            let _written = println!(rt; "FAILED: line {number}");
        }
        count.enter(number, answer);
    }
    count
}

fn run_table<R: Files + Print>(rt: &R, name: &str) {
    let mut table = [0u8; 262144];
    let length = tables::read_table(rt, name, &mut table).unwrap_or(0);
    let count = try_lines(rt, &table[..length]);
    let right = count.right;
    let all = count.all;
    let _written = println!(rt; "{name}: {right} of {all} jobs print what they should");
}

fn main(rt: HostRuntime) {
    run_table(&rt, "rigs.txt");
    run_table(&rt, "jobs.txt");
}
