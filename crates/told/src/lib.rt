// How a refusal is told to people and to other programs. It rests on nothing.
#![tactic(auto)]

ghost use Rattle.std.specs.Prelude.{◌≡◌};

// What can be told as a T: a refusal by its number, say, be that a fault's or any other.
pub trait Tell<T>: Sized {
    // What each value is told as.
    ghost told: { Self → T };

    fn tell(self) -> T
        ensures { result ≡ told self };
}

// What is told already stays as it is.
impl<T> Tell<T> for T {
    ghost told = { λ t. t };

    fn tell(self) -> T {
        self
    }
}

// A refusal by any number: with the byte where a field starts, or alone.
#[derive(Clone, Copy, PartialEq, Eq)]
pub enum Numbered {
    At(u8, usize),
    Alone(u8),
}
