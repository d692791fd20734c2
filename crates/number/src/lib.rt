// Whole numbers in seven-bit groups, lowest group first: read at a cursor, written into a lent run.
#![tactic(auto)]

ghost use Rattle.std.specs.Prelude.{◌≡◌, ◌+◌, ℕ, length};
ghost use Rattle.std.proofs.lemmas.List.Edits.{sets};
ghost use Rattle.refusal.specs.Numbers.{number_of};
ghost use Rattle.number.specs.Number.{groups, read_number, write_number};
ghost use Rattle.number.specs.Signed.{field_of, signed_of};
ghost use Rattle.number.specs.Field.{within, size_at_most, signed_number, field, signed_field};
ghost use Rattle.number.specs.Answers.{field_fault_number, as_read, as_part};
ghost use Rattle.number.specs.Inner.{GroupsLeft, Room};

use refusal::{Fault, Refusal};

// Where reading goes on.
#[derive(Clone, Copy, PartialEq, Eq)]
pub struct Cursor {
    pub at: usize,
}

// Why a field is turned down: its bytes end before it does; it is not in shortest form, over five groups or too large; or what it holds is not allowed there.
#[derive(Clone, Copy, PartialEq, Eq)]
pub enum FieldFault {
    Ended,
    NotShortest,
    NotAllowed,
}

// Why a field is turned down, and where it starts.
#[derive(Clone, Copy, PartialEq, Eq)]
pub struct Misread {
    pub fault: FieldFault,
    pub place: usize,
}

impl FieldFault {
    // The fault of the field that starts at a place.
    fn at(self, place: usize) -> Misread
        ensures { result ≡ record { fault = self; place = place } }
    {
        Misread { fault: self, place }
    }
}

impl Misread {
    // The same as people are told it: what is not allowed has a fault of its own, by the field that it stands in.
    fn named(self, own: Fault) -> Refusal
        ensures { (result.place ≡ self.place) × (number_of result.fault ≡ field_fault_number (number_of own) self.fault) }
    {
        match self.fault {
            FieldFault::Ended => Fault::Ended.at(self.place),
            FieldFault::NotShortest => Fault::NotShortest.at(self.place),
            FieldFault::NotAllowed => own.at(self.place),
        }
    }
}

// What a field may hold.
#[derive(Clone, Copy, PartialEq, Eq)]
pub struct Range {
    pub least: u32,
    pub most: u32,
}

// At most `left` groups of the field that starts at `from`: what they come to, with the cursor after them.
fn read_groups(s: &[u8], from: usize, c: Cursor, left: u32) -> Result<(u64, Cursor), Misread>
    requires { GroupsLeft left }
    ensures { (own : ℕ) → as_read own result ≡ groups from left s.now c.at }
{
    if left == 0 {
        return Err(FieldFault::NotShortest.at(from));
    }
    if s.len() <= c.at {
        return Err(FieldFault::Ended.at(from));
    }
    let group = u64::from(s[c.at]);
    let after = Cursor { at: c.at + 1 };
    if group < 128 {
        return Ok((group, after));
    }
    let (rest, next) = read_groups(s, from, after, left - 1)?;
    if rest == 0 {
        return Err(FieldFault::NotShortest.at(from));
    }
    Ok((group % 128 + 128 * rest, next))
}

// The number at a cursor.
pub fn read(s: &[u8], c: Cursor) -> Result<(u32, Cursor), Misread>
    ensures { (own : ℕ) → as_read own result ≡ read_number s.now c.at }
{
    let (v, next) = read_groups(s, c.at, c, 5)?;
    match u32::try_from(v) {
        Ok(value) => Ok((value, next)),
        Err(_) => Err(FieldFault::NotShortest.at(c.at)),
    }
}

// A number in a range.
pub fn read_within(s: &[u8], c: Cursor, range: Range) -> Result<(u32, Cursor), Misread>
    ensures { (own : ℕ) → as_read own result ≡ field own (within range) s.now c.at }
{
    let a = read(s, c);
    let Ok((v, _)) = a else {
        return a;
    };
    if is_within(range, v) {
        return a;
    }
    Err(FieldFault::NotAllowed.at(c.at))
}

pub fn is_within(range: Range, v: u32) -> bool
    ensures { result ≡ within range v }
{
    (range.least <= v) & (v <= range.most)
}

// The signed number that a field holds.
fn signed_of(x: u32) -> i32
    ensures { result ≡ signed_of x }
{
    // Kept: the new form is no plainer: i32 has no From of a u32, and try_from would answer an error that cannot come.
    let h = (x / 2) as i32;
    if x % 2 == 0 { h } else { -1 - h }
}

// The field that holds a signed number.
pub fn field_of(z: i32) -> u32
    ensures { result ≡ field_of z }
{
    if z < 0 {
        (z.unsigned_abs() - 1) * 2 + 1
    } else {
        z.unsigned_abs() * 2
    }
}

// The signed number at a cursor.
pub fn read_signed(s: &[u8], c: Cursor) -> Result<(i32, Cursor), Misread>
    ensures { (own : ℕ) → as_read own result ≡ signed_number s.now c.at }
{
    let (v, next) = read(s, c)?;
    Ok((signed_of(v), next))
}

// A signed number whose size is at most `most`.
pub fn read_sized(s: &[u8], c: Cursor, most: u32) -> Result<(i32, Cursor), Misread>
    ensures { (own : ℕ) → as_read own result ≡ signed_field own (size_at_most most) s.now c.at }
{
    let a = read_signed(s, c);
    let Ok((z, _)) = a else {
        return a;
    };
    if z.unsigned_abs() <= most {
        return a;
    }
    Err(FieldFault::NotAllowed.at(c.at))
}

// A field as people are told of it: what is not allowed there has a fault of its own.
pub fn named<T>(field: Result<(T, Cursor), Misread>, own: Fault) -> Result<(T, Cursor), Refusal>
    ensures { as_part result ≡ as_read (number_of own) field }
{
    field.map_err(|misread| misread.named(own))
}

// Writes a number at a position of the run, and answers the position after it.
pub fn write(run: &mut [u8], at: usize, x: u32) -> usize
    requires { Room (write_number x) at (length run.old) }
    ensures { (result ≡ at + length (write_number x)) × (run.new ≡ sets run.old at (write_number x)) }
{
    // Kept: the new form is no plainer: how many groups there are is known only once they are written, and `successors` would want a test of the last group besides. The casts: u8 has no From of a u32.
    let mut i = at;
    let mut y = x;
    while 128 <= y {
        run[i] = (y % 128 + 128) as u8;
        y = y / 128;
        i += 1;
    }
    run[i] = y as u8;
    i + 1
}
