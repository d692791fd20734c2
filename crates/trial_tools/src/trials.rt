// Tables of calls: each line's call is made, held to the line, and counted among those of its kind.
use crate::counts::Count;
use crate::reading::{Line, first_number};

// A kind of call.
pub trait Call: Copy {
    // The call made with what the line hands over; something, where it answers as the line says.
    fn make(self, line: &mut Line<'_>) -> Option<()>;
}

// The calls of each kind, and the lines of no known kind.
#[derive(Clone, Copy)]
pub struct Counts<const KINDS: usize> {
    pub kinds: [Count; KINDS],
    pub other: Count,
}

// A line begins with its kind's number, which counts from 1.
fn place_of(line: &[u8]) -> Option<usize> {
    first_number(line)?.checked_sub(1)
}

fn try_line<C: Call>(kind: C, line: &[u8]) -> Option<()> {
    let mut line = Line::of(line)?;
    let _kind: usize = line.number()?;
    kind.make(&mut line)?;
    line.end()
}

// A line counts among the calls of the kind that it begins with, even where it goes wrong right behind that.
pub fn try_lines<C: Call, const KINDS: usize>(text: &[u8], kinds: &[C; KINDS]) -> Counts<KINDS> {
    let mut counts = Counts {
        kinds: [Count::default(); KINDS],
        other: Count::default(),
    };
    for (number, line) in (1u64..).zip(text.split_inclusive(|b| *b == b'\n')) {
        let place = place_of(line).unwrap_or(KINDS);
        match (kinds.get(place), counts.kinds.get_mut(place)) {
            (Some(kind), Some(count)) => count.enter(number, try_line(*kind, line)),
            _ => counts.other.enter(number, None),
        }
    }
    counts
}
