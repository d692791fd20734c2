// Calls with hostile arguments, one to a line of a table that was computed apart from this code: each is made, and every number that it
// answers and every entry of the lent runs is held to the line.
// A line is the kind of the call, what is handed over, ` = ` and what is answered, a run being its length and then its entries. The answer begins
// with the refusal's number or 0; beside a refusal what is answered by value stands as zeros, and a record or a run as it was handed in.
#![tactic(auto)]

mod others;

use trial_tools::counts::Count;
use trial_tools::reading::Line;
use trial_tools::trials::{Call, Counts};
use trial_tools::{tables, trials};

#[derive(Clone, Copy)]
enum Kind {
    Place,
    Step,
    Widest,
    Write,
    Lay,
    PathTurn,
    UnitTurn,
    List,
}

// The kinds in the order of their numbers.
const KINDS: [Kind; 8] = [
    Kind::Place,
    Kind::Step,
    Kind::Widest,
    Kind::Write,
    Kind::Lay,
    Kind::PathTurn,
    Kind::UnitTurn,
    Kind::List,
];

impl Kind {
    fn name(self) -> &'static str {
        match self {
            Kind::Place => "place",
            Kind::Step => "step",
            Kind::Widest => "widest",
            Kind::Write => "write",
            Kind::Lay => "lay",
            Kind::PathTurn => "path turn",
            Kind::UnitTurn => "unit turn",
            Kind::List => "list",
        }
    }
}

impl Call for Kind {
    fn make(self, line: &mut Line<'_>) -> Option<()> {
        match self {
            Kind::Place => trial_calls::walks::place(line),
            Kind::Step => trial_calls::walks::step(line),
            Kind::Widest => others::widest(line),
            Kind::Write => others::write(line),
            Kind::Lay => others::lay(line),
            Kind::PathTurn => others::path_turn(line),
            Kind::UnitTurn => others::unit_turn(line),
            Kind::List => trial_lists::list(line),
        }
    }
}

// What cannot be written is lost: a trial has nowhere else to tell it.
fn report(rt: &impl Print, name: &str, count: Count) {
    let _written = match count.first_wrong {
        None => println!(rt; "{name}: {count}"),
        Some(line) => println!(rt; "{name}: {count}; the first that does not is on line {line}"),
    };
}

// Nothing is said where there is no such line.
fn report_others(rt: &impl Print, count: Count) {
    if let Some(line) = count.first_wrong {
        let all = count.all;
        let _written = println!(rt; "{all} lines are no known call; the first is line {line}");
    }
}

fn report_all(rt: &impl Print, counts: Counts<8>) {
    for (kind, count) in KINDS.iter().zip(&counts.kinds) {
        report(rt, kind.name(), *count);
    }
    report_others(rt, counts.other);
}

// Kept: the new form is no plainer: the two tables' mains are alike, but each names its own room, table, kinds and report.
fn main(rt: HostRuntime) {
    let mut room = tables::room::<1500000>();
    if let Some(text) = tables::whole_table(&rt, "calls.txt", &mut room) {
        report_all(&rt, trials::try_lines(text, &KINDS));
    }
}
