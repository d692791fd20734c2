// Why something is turned down, and where in the bytes that say so. It rests on nothing.
#![tactic(auto)]

ghost use Rattle.std.specs.Prelude.{◌≡◌};
ghost use Rattle.refusal.specs.Numbers.{number_of};

// Each reason for a refusal has a number of its own, which people are told.
#[derive(Clone, Copy, PartialEq, Eq)]
pub enum Fault {
    // The bytes end before the field does.
    Ended = 1,
    // A number is not in shortest form, has over five groups or is too large.
    NotShortest = 2,
    UnitCount = 3,
    // A wheelbase, a hitch or a fold limit.
    Unit = 4,
    // An overhang or a half width.
    Width = 5,
    Start = 6,
    Step = 7,
    // The number of elements, a length or a radius.
    Element = 8,
    // More than 2,000 steps.
    StepTotal = 9,
    LeftOver = 10,
    // Bytes of a geometry that are missing or left over, or a wrong mark, type or count.
    Geometry = 12,
    Coordinate = 13,
    RunTooShort = 21,
    MoveTooLong = 22,
    FoldLimit = 23,
    NoneComplete = 24,
    LastStation = 25,
    PathUnsound = 26,
    RecordUnsound = 27,
    NoRoom = 28,
    // A rail's pitch, its number of settings, or a setting.
    Rail = 29,
    NoneListed = 30,
}

impl Fault {
    // The number that people are told.
    // Kept: the papers and the C interface tell a refusal by its number, and the enum's own numbers are these.
    pub fn number(self) -> u8
        ensures { result ≡ number_of self }
    {
        self as u8
    }

    // The fault of the field that starts at a place.
    pub fn at(self, place: usize) -> Refusal
        ensures { result ≡ record { fault = self; place = place } }
    {
        Refusal { fault: self, place }
    }
}

// A fault of a field, and the byte where the field starts.
#[derive(Clone, Copy, PartialEq, Eq)]
pub struct Refusal {
    pub fault: Fault,
    pub place: usize,
}
