// Kerbs read and reported on, one call to a line of a table that was computed apart from this code: each is made, and every number that it
// answers and every entry of the lent runs is held to the line.
// A line is the kind of the call, what is handed over, ` = ` and what is answered, a run being its length and then its entries.
#![tactic(auto)]

mod calls;

use trial_tools::counts::Count;
use trial_tools::reading::Line;
use trial_tools::trials::{Call, Counts};
use trial_tools::{tables, trials};

#[derive(Clone, Copy)]
enum Kind {
    Read,
    Report,
    CheckTicks,
    CheckGeometry,
}

// The kinds in the order of their numbers.
const KINDS: [Kind; 4] = [
    Kind::Read,
    Kind::Report,
    Kind::CheckTicks,
    Kind::CheckGeometry,
];

impl Kind {
    fn name(self) -> &'static str {
        match self {
            Kind::Read => "reading a geometry",
            Kind::Report => "report",
            Kind::CheckTicks => "report from a job and ticks",
            Kind::CheckGeometry => "report from a job and a geometry",
        }
    }
}

impl Call for Kind {
    fn make(self, line: &mut Line<'_>) -> Option<()> {
        match self {
            Kind::Read => calls::read(line),
            Kind::Report => calls::report(line),
            Kind::CheckTicks => calls::check_ticks(line),
            Kind::CheckGeometry => calls::check_geometry(line),
        }
    }
}

// The first line that does not answer as it should.
fn first_wrong(counts: &Counts<4>) -> Option<u64> {
    let of_kinds = counts.kinds.iter().filter_map(|count| count.first_wrong);
    of_kinds.chain(counts.other.first_wrong).min()
}

// What cannot be written is lost: a trial has nowhere else to tell it.
fn report(rt: &impl Print, name: &str, count: Count) {
    let _written = println!(rt; "{name}: {count}");
}

fn report_all(rt: &impl Print, counts: Counts<4>) {
    for (kind, count) in KINDS.iter().zip(&counts.kinds) {
        report(rt, kind.name(), *count);
    }
    if let Some(line) = first_wrong(&counts) {
        let _written = println!(rt; "the first that does not is on line {line}");
    }
}

// Kept: the new form is no plainer: the two tables' mains are alike, but each names its own room, table, kinds and report.
fn main(rt: HostRuntime) {
    let mut room = tables::room::<2000000>();
    if let Some(text) = tables::whole_table(&rt, "kerbs.txt", &mut room) {
        report_all(&rt, trials::try_lines(text, &KINDS));
    }
}
