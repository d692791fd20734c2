// Numbers as ASCII text, written into a lent run of bytes, and read from bytes.
#![tactic(auto)]

ghost use Rattle.std.specs.Prelude.{◌≡◌, ◌+◌, length};
ghost use Rattle.std.proofs.lemmas.List.Edits.{sets};
ghost use Rattle.text.specs.Decimal.{digits, decimal, signed_decimal};
ghost use Rattle.text.specs.Reading.{read_decimal, RoundTrip};
ghost use Rattle.text.specs.Inner.{Room};
ghost use Rattle.text.specs.Texts.{WorkedTexts};

// Writes bytes at a position of the run, and answers the position after them.
pub fn put_bytes(run: &mut [u8], at: usize, bytes: &[u8]) -> usize
    requires { Room bytes.now at (length run.old) }
    ensures { (result ≡ at + length bytes.now) × (run.new ≡ sets run.old at bytes.now) }
{
    let end = at + bytes.len();
    run[at..end].copy_from_slice(bytes);
    end
}

// Writes the last `count` digits of a number, zeros in front included. They are found from the last to the first.
// Kept: tried, and the proof did not close: of `write!` into a lent slice no clause says which bytes it wrote.
fn put_digits(run: &mut [u8], at: usize, count: usize, n: u64) -> usize
    requires { Room (digits count n) at (length run.old) }
    ensures { (result ≡ at + length (digits count n)) × (run.new ≡ sets run.old at (digits count n)) }
{
    let mut y = n;
    for place in (at..at + count).rev() {
        // Kept: the new form is no plainer: u8 has no From of a u64, and try_from would answer an error that cannot come.
        run[place] = b'0' + (y % 10) as u8;
        y /= 10;
    }
    at + count
}

// How many digits a number has: 0 has one, as 1 has.
fn digit_count(n: u64) -> usize
    ensures { result ≡ length (decimal n) }
{
    // Kept: the new form is no plainer: usize has no From of a u32, and try_from would answer an error that cannot come.
    n.max(1).ilog10() as usize + 1
}

// Writes a number without zeros in front.
pub fn put_decimal(run: &mut [u8], at: usize, n: u64) -> usize
    requires { Room (decimal n) at (length run.old) }
    ensures { (result ≡ at + length (decimal n)) × (run.new ≡ sets run.old at (decimal n)) }
{
    put_digits(run, at, digit_count(n), n)
}

// Writes a signed number: a minus before the size of a negative one.
pub fn put_signed(run: &mut [u8], at: usize, z: i64) -> usize
    requires { Room (signed_decimal z) at (length run.old) }
    ensures { (result ≡ at + length (signed_decimal z)) × (run.new ≡ sets run.old at (signed_decimal z)) }
{
    let size = z.unsigned_abs();
    if z < 0 {
        run[at] = b'-';
        put_decimal(run, at + 1, size)
    } else {
        put_decimal(run, at, size)
    }
}

// Reads a number of 32 bits, zeros in front included. It stops at the first byte that is no digit and where the value is too large, because nothing after either makes it a number again.
pub fn read_decimal(bytes: &[u8]) -> Option<u32>
    ensures { result ≡ read_decimal bytes.now }
{
    if bytes.is_empty() {
        return None;
    }
    let mut value: u32 = 0;
    for b in bytes {
        if !b.is_ascii_digit() {
            return None;
        }
        value = value.checked_mul(10)?.checked_add(u32::from(*b - b'0'))?;
    }
    Some(value)
}

// Claim: what is written is read back, up to the largest number of 32 bits, and zeros in front change nothing.
pub fn decimal_round_trip()
    ensures { RoundTrip }
{}

// Claim: texts that pin the digits' order, the sign and the characters' codes, and what can be read.
pub fn worked_texts()
    ensures { WorkedTexts }
{}
