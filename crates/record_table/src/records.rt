// The record of a case: right in every field but one.
ghost use Rattle.std.specs.Prelude.{◌≤◌};

// The fields of a record, in the order in which the cases number them.
#[derive(Clone, Copy, PartialEq, Eq)]
pub enum Field {
    Units,
    Wheelbase,
    Hitch,
    Fold,
    Overhang,
    Front,
    Rear,
    X,
    Y,
    Gx,
    Gy,
    Step,
    Elements,
    Length,
    Radius,
    FrontOverhang,
    RearOverhang,
    HalfWidth,
}

const FIELDS: [Field; 18] = [
    Field::Units,
    Field::Wheelbase,
    Field::Hitch,
    Field::Fold,
    Field::Overhang,
    Field::Front,
    Field::Rear,
    Field::X,
    Field::Y,
    Field::Gx,
    Field::Gy,
    Field::Step,
    Field::Elements,
    Field::Length,
    Field::Radius,
    Field::FrontOverhang,
    Field::RearOverhang,
    Field::HalfWidth,
];

impl Field {
    pub fn numbered(number: usize) -> Option<Field> {
        FIELDS.get(number).copied()
    }

    fn is_signed(self) -> bool {
        matches!(
            self,
            Field::Hitch | Field::Fold | Field::X | Field::Y | Field::Gx | Field::Gy | Field::Radius
        )
    }

    // The number that a value is written as: a signed one is doubled, less one where it is negative.
    fn written(self, value: i32) -> u64 {
        let size = u64::from(value.unsigned_abs());
        if !self.is_signed() {
            return size;
        }
        if value < 0 { 2 * size - 1 } else { 2 * size }
    }
}

// A record of so many units, 10 more in a long job, and of so many elements, whose field, at an index, holds a value; then the refusal's number,
// 0 for none, and the field where it is placed. A record has no field beyond those that the cases number, so that none stands for one.
#[derive(Clone, Copy)]
pub struct Case {
    pub units: u32,
    pub elements: u32,
    pub field: Option<Field>,
    pub index: u32,
    pub value: i32,
    pub number: u32,
    pub placed: Option<Field>,
}

impl Case {
    fn is_long(self) -> bool {
        10 < self.units
    }
}

const ROOM: usize = 1024;

// Kept: a rule of the project needs an array with its count: there is no heap.
// A record in the making, and where the field starts that a refusal is placed at.
#[derive(Clone, Copy)]
pub struct Record {
    bytes: [u8; ROOM],
    length: usize,
    pub place: usize,
    ghost in_room: { length ≤ 1024 },
}

impl Record {
    fn empty() -> Record {
        Record {
            bytes: [0; ROOM],
            length: 0,
            place: 0,
        }
    }

    pub fn bytes(&self) -> &[u8] {
        &self.bytes[..self.length]
    }

    // What does not fit is left out.
    fn put_byte(&mut self, b: u8) {
        if self.length < ROOM {
            self.bytes[self.length] = b;
            self.length += 1;
        }
    }

    fn put_number(&mut self, number: u64) {
        let mut rest = number;
        // Kept: the new form is no plainer: the number itself tells how many groups it takes, so no iterator has the steps.
        while 128 <= rest {
            self.put_byte((rest % 128 + 128) as u8);
            rest /= 128;
        }
        self.put_byte(rest as u8);
    }

    // The case's value where it is the field in question, else the usual one.
    fn put_field(&mut self, c: Case, field: Field, index: u32, usual: i32) {
        let wanted = if c.field == c.placed { c.index } else { 0 };
        if Some(field) == c.placed && index == wanted {
            self.place = self.length;
        }
        let is_case = Some(field) == c.field && index == c.index;
        self.put_number(field.written(if is_case { c.value } else { usual }));
    }

    // The last unit has no hitch, the first no fold limit; only a long job has bodies.
    fn put_units(&mut self, c: Case) {
        let count = c.units % 10;
        for i in 0..count {
            let is_last = i == count - 1;
            self.put_field(c, Field::Wheelbase, i, 50000);
            self.put_field(c, Field::Hitch, i, if is_last { 0 } else { 100 });
            self.put_field(c, Field::Fold, i, if i == 0 { 0 } else { 100 });
            if c.is_long() {
                self.put_field(c, Field::FrontOverhang, i, 9000);
                self.put_field(c, Field::RearOverhang, i, 8000);
                self.put_field(c, Field::HalfWidth, i, 12500);
            }
        }
    }

    fn put_elements(&mut self, c: Case) {
        for i in 0..c.elements {
            self.put_field(c, Field::Length, i, 65000);
            self.put_field(c, Field::Radius, i, 0);
        }
    }
}

// A number of nine digits, which has 31 bits.
pub fn signed(number: u32) -> i32 {
    i32::try_from(number).unwrap_or(i32::MAX)
}

pub fn record_of(c: Case) -> Record {
    let mut record = Record::empty();
    record.put_field(c, Field::Units, 0, signed(c.units));
    record.put_units(c);
    record.put_field(c, Field::Overhang, 0, if c.is_long() { 0 } else { 10000 });
    record.put_field(c, Field::Front, 0, 12000);
    record.put_field(c, Field::Rear, 0, 12000);
    record.put_field(c, Field::X, 0, 0);
    record.put_field(c, Field::Y, 0, 0);
    record.put_field(c, Field::Gx, 0, 0);
    record.put_field(c, Field::Gy, 0, 1000000);
    record.put_field(c, Field::Step, 0, 20000);
    record.put_field(c, Field::Elements, 0, signed(c.elements));
    record.put_elements(c);
    record
}
