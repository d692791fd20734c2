// How calls answered.
ghost use Rattle.std.specs.Prelude.{◌≡◌, ◌+◌, ◌%◌, ◌^◌, if◌then◌else◌, is_some, IsNone, IsSome, Some, None};

use std::fmt;

// The calls of one kind: how many, how many of them answer as they should, and the line of the first that does not. Without such a line all do.
#[derive(Clone, Copy)]
pub struct Count {
    pub all: u64,
    pub right: u64,
    pub first_wrong: Option<u64>,
    ghost all_right: { IsNone first_wrong → right ≡ all },
}

// Kept: the new form is no plainer: no Default is derived for a type that promises something of its fields.
impl Default for Count {
    fn default() -> Count
        ensures all { result.all ≡ 0 }
        ensures right { result.right ≡ 0 }
        ensures first { result.first_wrong ≡ None }
    {
        Count {
            all: 0,
            right: 0,
            first_wrong: None,
        }
    }
}

impl Count {
    // All are counted, and those with an answer as right; the first line without one stays the first wrong line.
    pub fn enter(&mut self, line: u64, answer: Option<()>)
        ensures all { self.new.all ≡ (self.old.all + 1) % 2 ^ 64 }
        ensures right { self.new.right ≡ (if is_some answer then (self.old.right + 1) % 2 ^ 64 else self.old.right) }
        ensures first { IsNone answer → IsNone self.old.first_wrong → self.new.first_wrong ≡ Some line }
        ensures earlier { IsSome self.old.first_wrong → self.new.first_wrong ≡ self.old.first_wrong }
        ensures none { IsSome answer → self.new.first_wrong ≡ self.old.first_wrong }
    {
        self.all = self.all.wrapping_add(1);
        match answer {
            Some(()) => self.right = self.right.wrapping_add(1),
            None => self.first_wrong = self.first_wrong.or(Some(line)),
        }
    }
}

impl fmt::Display for Count {
    fn fmt<W: fmt::Write>(&self, f: &mut fmt::Formatter<W>) -> fmt::Result {
        let right = self.right;
        let all = self.all;
        write!(f, "{right} of {all} calls answer as they should")
    }
}
