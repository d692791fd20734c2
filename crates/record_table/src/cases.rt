// The cases of the table, number by number. Whatever else stands between numbers is passed over, and a number that is missing is 0.
use crate::records;
use crate::records::{Case, Field};
use trial_tools::digits;

// A number of the table: at most its last nine digits, and whether a minus stands right before them.
#[derive(Clone, Copy)]
struct Number {
    size: u32,
    is_negative: bool,
}

impl Number {
    // Kept: the new form is no plainer: the cases number the fields, and none is meant by a number beyond them.
    fn field(self) -> Option<Field> {
        Field::numbered(self.size as usize)
    }

    fn value(self) -> i32 {
        let size = records::signed(self.size);
        if self.is_negative {
            size.wrapping_neg()
        } else {
            size
        }
    }
}

// What is left of the table, and the byte right before it, 0 at its start.
#[derive(Clone, Copy)]
pub struct Table<'a> {
    rest: &'a [u8],
    before: u8,
}

impl<'a> Table<'a> {
    pub fn of(text: &'a [u8]) -> Table<'a> {
        Table {
            rest: text,
            before: 0,
        }
    }

    // Kept: the new form is no plainer: it asks another table than `Figures::left` of turn_trials, in one call.
    pub fn is_read(self) -> bool {
        self.rest.is_empty()
    }

    // The next number, and one byte behind it passed over.
    fn number(&mut self) -> Number {
        let first = self.rest.iter().position(|b| b.is_ascii_digit());
        let (gap, rest) = self.rest.split_at(first.unwrap_or(self.rest.len()));
        let number = digits::read_digits(rest);
        let before = gap.last().copied().unwrap_or(self.before);
        (self.before, self.rest) = match number.rest.split_first() {
            Some((passed, rest)) => (*passed, rest),
            None => (0, number.rest),
        };
        Number {
            size: digits::last_nine(number.size),
            is_negative: before == b'-',
        }
    }

    pub fn case(&mut self) -> Case {
        let units = self.number();
        let elements = self.number();
        let field = self.number();
        let index = self.number();
        let value = self.number();
        let number = self.number();
        let placed = self.number();
        Case {
            units: units.size,
            elements: elements.size,
            field: field.field(),
            index: index.size,
            value: value.value(),
            number: number.size,
            placed: placed.field(),
        }
    }
}
