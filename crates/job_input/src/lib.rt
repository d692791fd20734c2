// What the programs that answer one job do around the answer: read standard input, look at arguments, write, and tell what failed. It rests on the standard library alone.
#![tactic(auto)]

ghost use Rattle.std.specs.Prelude.{◌<◌, IfOk, OnOk, length, take};
ghost use Rattle.std.specs.Io.{ReadsAtMost};
ghost use Rattle.std.specs.Io.KnownBytes.{Appends, Consumes, IsAtEnd};

use std::env::FillError;
use std::io;
use std::io::{Read, Write};
use std::rt::Env;

// Reads until the input ends or the buffer is full, and answers how many bytes that is: they stand in the order in which the reader gave them. A read that a signal interrupts before it moves a byte counts as one that failed.
pub fn read_input<R: Read>(reader: &mut R, buffer: &mut [u8]) -> io::Result<usize>
    ensures within { ReadsAtMost result buffer.new }
    ensures bytes { IfOk result (λ n. Consumes (R.remaining reader.old) (R.remaining reader.new) (take n buffer.new)) }
    ensures end { IfOk result (λ n. n < length buffer.new → IsAtEnd (R.remaining reader.new)) }
{
    // Kept: the new form is no plainer: how far a read moves is known only once it has read, so no iterator has the steps.
    let mut done = 0;
    while done < buffer.len() {
        let more = reader.read(&mut buffer[done..])?;
        if more == 0 {
            break;
        }
        done += more;
    }
    Ok(done)
}

// The same of standard input, with the words that a program tells where it cannot be read.
pub fn read_standard_input<R: Read>(stdin: &mut R, buffer: &mut [u8]) -> Result<usize, &'static str>
    ensures within { ReadsAtMost result buffer.new }
    ensures bytes { IfOk result (λ n. Consumes (R.remaining stdin.old) (R.remaining stdin.new) (take n buffer.new)) }
    ensures end { IfOk result (λ n. n < length buffer.new → IsAtEnd (R.remaining stdin.new)) }
{
    read_input(stdin, buffer).map_err(|_| "standard input cannot be read")
}

// Whether there is an argument at a place. Only an empty one fits where there is no room, and any other is too long.
// It takes the runtime itself: under a bound the whole of what the runtime knows of its environment would be assumed.
// It has no clause, because the library promises nothing of arguments.
pub fn has_argument(rt: HostRuntime, place: usize) -> bool {
    !matches!(rt.arg(place, &mut []), Err(FillError::NotPresent))
}

// Writes an answer whole to standard output, or says in words that it cannot be written.
pub fn write_answer<W: Write>(stdout: &mut W, answer: &[u8]) -> Result<(), &'static str>
    ensures { OnOk result (Appends (W.contents stdout.old) (W.contents stdout.new) answer.now) }
{
    stdout
        .write_all(answer)
        .map_err(|_| "standard output cannot be written")
}

// Tells on standard error what a program failed at, after the program's name. Where standard error cannot be written either, nothing is left to tell it on.
// It has no clause, because the library promises nothing of standard error.
pub fn tell_failure(rt: &impl Eprint, program: &str, outcome: Result<(), &str>) {
    if let Err(failure) = outcome {
        let _ = eprintln!(rt; "{program}: {failure}");
    }
}
