// What a job came to, as the lines that the programs print.
#![tactic(auto)]

pub mod settings;

ghost use Rattle.std.specs.Prelude.{◌≡◌, ◌≤◌, ◌++◌, ◌+◌, length, take};
ghost use Rattle.text.specs.Decimal.{decimal, signed_decimal};
ghost use Rattle.swept.specs.Answers.{as_refused, swept_by};
ghost use Rattle.answer_text.specs.Printed.{steps_line, place_line, widest_line, front_line, finished_lines, refused_line, stopped_line, printed};
ghost use Rattle.answer_text.specs.Appending.{nothing, Line};
ghost use Rattle.answer_text.specs.Answers.{TextIs, TextEnsures};
ghost use Rattle.answer_text.specs.Inner.{Space};
ghost use Rattle.answer_text.specs.Forms.{PrintedForms};

use plane::Vec2;
use reaches::Place;
use run::Finish;
use swept::SweepTold;
use told::Tell;

// The lines stand at the start of the array; zeros stand after them.
// Kept: a rule of the project needs an array with its count: there is no heap, and the zeros are promised.
#[derive(Clone, Copy)]
pub struct Text {
    pub bytes: [u8; 192],
    pub length: usize,
}

impl Text {
    #[tactic(auto, unfolding(crate::specs::Appending::nothing))]
    pub fn empty() -> Text
        ensures value { result ≡ nothing }
        ensures length { result.length ≡ 0 }
    {
        Text {
            bytes: [0u8; 192],
            length: 0,
        }
    }

    // The lines, without the zeros after them.
    pub fn as_bytes(&self) -> &[u8]
        requires { self.now.length ≤ 192 }
        ensures { result.now ≡ take self.now.length self.now.bytes }
    {
        &self.bytes[..self.length]
    }

    pub fn put_words(mut self, words: &[u8]) -> Text
        requires { Space self (length words.now) }
        ensures { Line self words.now (length words.now) result }
    {
        let at = self.length;
        self.length = text::put_bytes(&mut self.bytes, at, words);
        self
    }

    // Words, and a number after them, which takes 20 bytes at most.
    pub fn put_number(self, words: &[u8], n: u64) -> Text
        requires { Space self (length words.now + 20) }
        ensures { Line self (words.now ++ decimal n) (length words.now + 20) result }
    {
        let mut worded = self.put_words(words);
        let at = worded.length;
        worded.length = text::put_decimal(&mut worded.bytes, at, n);
        worded
    }

    // The same of a signed number, with its sign.
    // Kept: the new form is no plainer: a trait over both numbers would be longer than the one line in which they differ.
    fn put_signed(self, words: &[u8], z: i64) -> Text
        requires { Space self (length words.now + 20) }
        ensures { Line self (words.now ++ signed_decimal z) (length words.now + 20) result }
    {
        let mut worded = self.put_words(words);
        let at = worded.length;
        worded.length = text::put_signed(&mut worded.bytes, at, z);
        worded
    }

    fn put_steps(self, steps: usize) -> Text
        requires { Space self 27 }
        ensures { Line self (steps_line steps) 27 result }
    {
        // Kept: the new form is no plainer: u64 has no From of a usize, and try_from would answer an error that cannot come.
        self.put_number(b"steps ", steps as u64).put_words(b"\n")
    }

    fn put_place(self, p: Place) -> Text
        requires { Space self 91 }
        ensures { Line self (place_line p) 91 result }
    {
        // Kept: the cast, for the reason given in `put_steps`.
        self.put_number(b"widest ", p.station as u64)
            .put_signed(b" ", p.width)
            .put_signed(b" ", p.left)
            .put_signed(b" ", p.right)
            .put_words(b"\n")
    }

    #[tactic(auto, using(crate::proofs::LineLaws::within), unfolding(text::specs::Ascii::ascii))]
    fn put_widest(self, best: Option<Place>) -> Text
        requires { Space self 91 }
        ensures { Line self (widest_line best) 91 result }
    {
        match best {
            None => self.put_words(b"widest none\n"),
            Some(p) => self.put_place(p),
        }
    }

    fn put_front(self, v: Vec2) -> Text
        requires { Space self 48 }
        ensures { Line self (front_line v) 48 result }
    {
        self.put_signed(b"front ", v.x)
            .put_signed(b" ", v.y)
            .put_words(b"\n")
    }
}

// The steps made, the widest place and the last front point, a line each.
fn finished_text(f: Finish) -> Text
    ensures { Line nothing (finished_lines f) 166 result }
{
    Text::empty()
        .put_steps(f.steps)
        .put_widest(f.widest)
        .put_front(f.front)
}

// Kept: the new form is no plainer: the number is printed as a number, and a `Fault` in its place would ask more of callers.
pub fn refused_text(number: u8, byte: usize) -> Text
    ensures { Line nothing (refused_line number byte) 53 result }
{
    // Kept: the cast, for the reason given in `put_steps`.
    Text::empty()
        .put_number(b"refused ", u64::from(number))
        .put_number(b" at ", byte as u64)
        .put_words(b"\n")
}

// Kept: the number, for the reason given at `refused_text`.
pub fn stopped_text(number: u8, unit: usize, step: usize) -> Text
    ensures { Line nothing (stopped_line number unit step) 81 result }
{
    Text::empty()
        // Kept: the casts, for the reason given in `put_steps`.
        .put_number(b"refused ", u64::from(number))
        .put_number(b" unit ", unit as u64)
        .put_number(b" step ", step as u64)
        .put_words(b"\n")
}

// Why a job has no answer, as the line that is printed in its place; any numbers fit.
pub fn refusal_text<R: Tell<SweepTold>>(refusal: R) -> Text
    ensures { TextIs (printed (as_refused (R.told refusal))) result }
{
    match refusal.tell() {
        SweepTold::Stopped(number, unit, step) => stopped_text(number, unit, step),
        SweepTold::Refused(number, byte) => refused_text(number, byte),
    }
}

// Any answer's lines: the widest of them fit.
pub fn text_of<R: Tell<SweepTold>>(s: Result<Finish, R>) -> Text
    ensures { TextEnsures (swept_by R.told s) result }
{
    match s {
        Ok(f) => finished_text(f),
        Err(refusal) => refusal_text(refusal),
    }
}

// Claim: the printed forms of document 01, word for word.
#[tactic(auto, using(crate::proofs::Rows::printed_forms_lem))]
pub fn printed_forms()
    ensures { PrintedForms }
{}
