// A line of the table, read on where it goes wrong: a number that is missing, or that its type cannot hold, is 0, and a line that failed stays failed.
use job::{Body, Curve, Element, Form, Job, Side, Start, Unit, Vehicle};
use plane::Vec2;
use trial_tools::digits;

// What is left of a line, and whether it was right up to there.
#[derive(Drop)]
pub struct Line<'a> {
    rest: &'a [u8],
    is_right: bool,
}

impl<'a> Line<'a> {
    pub fn of(line: &'a [u8]) -> Line<'a> {
        Line {
            rest: line,
            is_right: true,
        }
    }

    // Whether it was right, and nothing is left over.
    pub fn is_whole(&self) -> bool {
        self.is_right && self.rest.is_empty()
    }

    fn test(&mut self, holds: bool) {
        self.is_right = self.is_right && holds;
    }

    // A number that is there, or 0.
    fn held<N: Default>(&mut self, number: Option<N>) -> N {
        self.test(number.is_some());
        number.unwrap_or_default()
    }

    // A field ends at the end of the line, or at a single space with more behind it.
    fn pass_gap(&mut self, behind: &'a [u8]) {
        match behind.split_first() {
            Some((gap, rest)) => {
                self.test(*gap == b' ' && !rest.is_empty());
                self.rest = rest;
            }
            None => self.rest = behind,
        }
    }

    // The sign that parts what is handed over from what is answered.
    pub fn equals_sign(&mut self) {
        match self.rest.split_first() {
            Some((sign, behind)) => {
                self.test(*sign == b'=');
                self.pass_gap(behind);
            }
            None => self.test(false),
        }
    }

    // The size of a number, and whether it has a minus.
    fn sized(&mut self) -> (u64, bool) {
        let unsigned = self.rest.strip_prefix(b"-");
        let number = digits::read_digits(unsigned.unwrap_or(self.rest));
        self.test(0 < number.count && number.fits);
        self.pass_gap(number.rest);
        (number.size, unsigned.is_some())
    }

    // Kept: the new form is no plainer: this is no size of a number, but a field of the line that tells one.
    pub fn size(&mut self) -> usize {
        let (size, is_negative) = self.sized();
        self.test(!is_negative);
        // Kept: the new form is no plainer: try_from would answer an error that cannot come.
        size as usize
    }

    pub fn natural(&mut self) -> u32 {
        let size = self.size();
        self.held(u32::try_from(size).ok())
    }

    // Kept: the new form is no plainer: a field of the line, not a number made wider.
    fn wide(&mut self) -> i64 {
        let (size, is_negative) = self.sized();
        self.held(if is_negative {
            0i64.checked_sub_unsigned(size)
        } else {
            i64::try_from(size).ok()
        })
    }

    fn signed(&mut self) -> i32 {
        let wide = self.wide();
        self.held(i32::try_from(wide).ok())
    }

    pub fn vector(&mut self) -> Vec2 {
        Vec2 {
            x: self.wide(),
            y: self.wide(),
        }
    }

    // Kept: the new form is no plainer: the tables write a form as a number, and it is an enum from here on.
    // 0 is a short job's vehicle, 1 a long one's.
    fn form(&mut self) -> Form {
        let kind = self.natural();
        self.test(kind <= 1);
        if kind == 1 { Form::Long } else { Form::Short }
    }

    fn unit(&mut self) -> Unit {
        Unit {
            wheelbase: self.natural(),
            hitch: self.signed(),
            fold: self.signed(),
            body: Body {
                front_overhang: self.natural(),
                rear_overhang: self.natural(),
                half_width: self.natural(),
            },
        }
    }

    fn vehicle(&mut self) -> Vehicle {
        Vehicle {
            form: self.form(),
            count: self.size(),
            units: [self.unit(), self.unit(), self.unit(), self.unit()],
            overhang: self.natural(),
            front_half_width: self.natural(),
            rear_half_width: self.natural(),
        }
    }

    fn start(&mut self) -> Start {
        Start {
            x: self.signed(),
            y: self.signed(),
            gx: self.signed(),
            gy: self.signed(),
        }
    }

    // Kept: the number of a kind, for the reason given at `form`.
    // 1 turns left, 2 right; 0 is a straight, whose radius is not read by anyone.
    fn element(&mut self) -> Element {
        let length = self.natural();
        let kind = self.natural();
        let radius = self.natural();
        self.test(kind <= 2);
        let curve = match kind {
            1 => Curve::Arc(Side::Left, radius),
            2 => Curve::Arc(Side::Right, radius),
            _ => Curve::Straight,
        };
        Element { length, curve }
    }

    // As many elements as the next number says; those behind them are straights of length 0. More than a job has are not read.
    fn elements(&mut self) -> [Element; 64] {
        let given = self.size();
        let mut elements = job::empty_elements();
        match elements.get_mut(..given) {
            Some(given) => {
                for element in given {
                    *element = self.element();
                }
            }
            None => self.test(false),
        }
        elements
    }

    pub fn job(&mut self) -> Job {
        Job {
            vehicle: self.vehicle(),
            start: self.start(),
            step: self.natural(),
            count: self.size(),
            elements: self.elements(),
        }
    }
}
