// A lent answer run and the number beside it: what programs in C and Rust get of a refusal, and of a turn by itself.
#![tactic(auto)]

pub mod turns;

ghost use Rattle.std.specs.Prelude.{◌≡◌, length};
ghost use Rattle.std.proofs.lemmas.List.Edits.{sets};
ghost use Rattle.answer_run.specs.Answers.{at_byte, at_unit};
ghost use Rattle.answer_run.specs.Inner.{Room, ByteFits, UnitFits};

use refusal::Fault;

// Entries of a run, from `at` on.
pub fn put_entries<const N: usize>(run: &mut [i64], at: usize, entries: [i64; N])
    requires { Room at N (length run.old) }
    ensures { run.new ≡ sets run.old at entries.entry }
{
    run[at..at + N].copy_from_slice(&entries);
}

// The number of a run that is too short, without a byte beside it.
pub fn too_short() -> u32
    ensures { result ≡ 21 }
{
    u32::from(Fault::RunTooShort.number())
}

// A refusal at a byte, in one number.
// Kept: the new form is no plainer: the number is handed over as a number, and a `Fault` in its place would ask more of callers.
pub fn at_byte(number: u8, byte: usize) -> u32
    requires { ByteFits byte }
    ensures { result ≡ at_byte number byte }
{
    // Kept: the new form is no plainer: u32 has no From of a usize, and try_from would answer an error that cannot come.
    u32::from(number) + 256 * (byte as u32)
}

// A refusal at a unit in a step, in one number.
// Kept: the number, for the reason given at `at_byte`.
pub fn at_unit(number: u8, unit: usize, step: usize) -> u32
    requires { UnitFits unit step }
    ensures { result ≡ at_unit number unit step }
{
    // Kept: the casts, for the reason given in `at_byte`.
    u32::from(number) + 256 * (unit as u32) + 65536 * (step as u32)
}
