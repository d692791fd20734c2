// Tables, read whole into the room that is lent for them.
ghost use Rattle.std.specs.Io.{ReadsAtMost};
ghost use Rattle.std.specs.Prelude.{◌≡◌, ◌<◌, ◌≤◌, length, replicate, IfSome};

use std::io::Read;
use std::rt::Files;
use std::{fs, io};

// Reads until the room is full, the input ends or a read fails, and returns how many bytes stand at the start of the room.
pub fn read_full<R: Read>(reader: &mut R, text: &mut [u8]) -> usize
    ensures { result ≤ length text.new }
{
    let mut done: usize = 0;
    // Kept: the new form is no plainer: only a read tells how far it comes, so no iterator has the steps.
    while done < text.len() {
        let n = reader.read(&mut text[done..]).unwrap_or(0);
        if n == 0 {
            return done;
        }
        done += n;
    }
    done
}

// The same of a file; only one that cannot be opened is an error.
pub fn read_table<R: Files>(rt: &R, name: &str, text: &mut [u8]) -> io::Result<usize>
    ensures { ReadsAtMost result text.new }
{
    let mut file = fs::open(rt, name)?;
    Ok(read_full(&mut file, text))
}

// Room for a table of so many bytes.
pub fn room<const SIZE: usize>() -> [u8; SIZE]
    ensures { result ≡ replicate SIZE 0 }
{
    [0; SIZE]
}

// The table, where it could be opened and leaves some of the room; else what is wrong is told. What cannot be written is lost: a trial has
// nowhere else to tell it.
pub fn whole_table<'t, R: Files + Print + Eprint>(
    rt: &R,
    name: &str,
    room: &'t mut [u8],
) -> Option<&'t [u8]>
    ensures { IfSome result (λ text. length text.now < length room.old) }
{
    match read_table(rt, name, room) {
        Ok(length) if length < room.len() => Some(&room[..length]),
        Ok(_) => {
            let _written = println!(rt; "the table does not fit");
            None
        }
        Err(error) => {
            let _written = eprintln!(rt; "{name}: {error}");
            None
        }
    }
}
