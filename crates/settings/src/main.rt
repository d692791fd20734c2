// The best settings of a sliding bogie: a job from standard input, as `sweep` reads it, and the lowest wheelbase, the pitch and the number of settings as arguments.
// What cannot be read or written is told on standard error, because the status is 0 whatever comes, as the README promises.
#![tactic(auto)]

ghost use Rattle.offered.specs.Offered.{offered_of};
ghost use Rattle.answer_text.specs.Answers.{TextIs};
ghost use Rattle.answer_text.specs.Settings.{printed_settings};

use answer_text::Text;
use bogie::Rail;
use std::io::{Read, Write};
use std::rt::Env;

// What is told where the arguments are not the three numbers.
const EXPECTED: &str =
    "expected three numbers up to 4294967295: lowest wheelbase, pitch, number of settings";

fn answer(input: &[u8], rail: Rail) -> Text
    ensures { TextIs (printed_settings (offered_of input.now rail)) result }
{
    answer_text::settings::settings_text(offered::list_job(input, rail))
}

// An argument as a number. Linux passes none of 131,072 bytes or more, so every one fits; one that is missing is no number, and an empty one neither.
fn argument(rt: HostRuntime, place: usize) -> Option<u32> {
    let mut word = [0u8; 131072];
    let count = rt.arg(place, &mut word).ok()?;
    text::read_decimal(&word[..count])
}

// The job is read only once the arguments are good.
fn run<R: Read, W: Write>(
    rt: HostRuntime,
    stdin: &mut R,
    stdout: &mut W,
) -> Result<(), &'static str> {
    if job_input::has_argument(rt, 4) {
        return Err(EXPECTED);
    }
    let rail = Rail {
        lowest: argument(rt, 1).ok_or(EXPECTED)?,
        pitch: argument(rt, 2).ok_or(EXPECTED)?,
        number: argument(rt, 3).ok_or(EXPECTED)?,
    };
    let mut input = [0u8; 1024];
    let count = job_input::read_standard_input(stdin, &mut input)?;
    let text = answer(&input[..count], rail);
    job_input::write_answer(stdout, text.as_bytes())
}

// Kept: the new form is no plainer: `kerb` has the same one call, with another name and another `run`.
fn main(rt: HostRuntime) {
    job_input::tell_failure(&rt, "settings", run(rt, &mut rt.stdin(), &mut rt.stdout()));
}
