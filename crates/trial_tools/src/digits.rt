// Digits wherever they stand in a text, read on where they are more than a number has.
ghost use Rattle.std.specs.Prelude.{◌≡◌, ◌%◌, drop};

// The digits that a text begins with: how many, their number, whether it has 64 bits, and what stands behind them. A digit with which it would have more is left out of it.
// Kept: the new form is no plainer: a number that does not fit is read all the same, as far as it fits, so an Option would lose it.
#[derive(Clone, Copy)]
pub struct Digits<'a> {
    pub count: usize,
    pub size: u64,
    pub fits: bool,
    pub rest: &'a [u8],
}

// One digit more, where the number stays within 64 bits.
fn appended(size: u64, digit: u8) -> Option<u64> {
    size.checked_mul(10)?.checked_add(u64::from(digit & 15))
}

pub fn read_digits(text: &[u8]) -> Digits<'_>
    ensures { result.rest.now ≡ drop result.count text.now }
{
    let count = text
        .iter()
        .position(|b| !b.is_ascii_digit())
        .unwrap_or(text.len());
    let (digits, rest) = text.split_at(count);
    let mut size = 0;
    let mut fits = true;
    for digit in digits {
        match appended(size, *digit) {
            Some(more) => size = more,
            None => fits = false,
        }
    }
    Digits {
        count,
        size,
        fits,
        rest,
    }
}

// At most the last nine digits of a number.
pub fn last_nine(size: u64) -> u32
    ensures { result ≡ size % 1000000000 }
{
    // Kept: the new form is no plainer: try_from would answer an error that cannot come.
    (size % 1000000000) as u32
}
