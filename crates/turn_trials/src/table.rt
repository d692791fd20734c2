// The figures of the printed table, in order: whole ticks, or a question mark where none could be read.
use plane::Vec2;
use trial_tools::digits;

// A figure of the table: at most its last nine digits, where it has any; and whether a minus stands before them.
#[derive(Clone, Copy)]
pub struct Figure {
    pub is_legible: bool,
    pub size: u32,
    is_negative: bool,
}

impl Figure {
    fn value(self) -> Option<i64> {
        let size = i64::from(self.size);
        let value = if self.is_negative { -size } else { size };
        self.is_legible.then_some(value)
    }
}

// What is left of the table.
#[derive(Clone, Copy)]
pub struct Figures<'a> {
    rest: &'a [u8],
}

impl<'a> Figures<'a> {
    pub fn of(text: &'a [u8]) -> Figures<'a> {
        Figures { rest: text }
    }

    // Kept: for the reason given at `Table::is_read` of record_table.
    pub fn left(self) -> usize {
        self.rest.len()
    }

    // The digits from a place on, none where something else stands there, which is not passed over.
    fn digits(&mut self, from: &'a [u8], is_negative: bool) -> Figure {
        let digits = digits::read_digits(from);
        self.rest = digits.rest;
        Figure {
            is_legible: 0 < digits.count,
            size: digits::last_nine(digits.size),
            is_negative,
        }
    }

    // The next figure, with the blanks and line ends before it passed over.
    pub fn figure(&mut self) -> Figure {
        let blanks = self.rest.iter().position(|b| b' ' < *b);
        let from = &self.rest[blanks.unwrap_or(self.rest.len())..];
        match from.split_first() {
            Some((b'?', rest)) => {
                self.rest = rest;
                Figure {
                    is_legible: false,
                    size: 0,
                    is_negative: false,
                }
            }
            Some((b'-', rest)) => self.digits(rest, true),
            _ => self.digits(from, false),
        }
    }

    // A place that is printed, where both of its figures could be read.
    pub fn cell(&mut self) -> Option<Vec2> {
        let x = self.figure().value();
        let y = self.figure().value();
        Some(Vec2 { x: x?, y: y? })
    }
}
