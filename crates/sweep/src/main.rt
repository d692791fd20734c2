// One job from standard input: at most its first 1,024 bytes are read, which answer as the whole would. What it came to goes to standard output.
// A read or a write that fails is told on standard error, because the status is 0 whatever comes, as the README promises.
#![tactic(auto)]

ghost use Rattle.swept.specs.Swept.{swept_of};
ghost use Rattle.answer_text.specs.Answers.{TextEnsures};

use answer_text::Text;
use std::io::{Read, Write};

fn answer(input: &[u8]) -> Text
    ensures { TextEnsures (swept_of input.now) result }
{
    answer_text::text_of(swept::sweep_job(input))
}

fn run<R: Read, W: Write>(stdin: &mut R, stdout: &mut W) -> Result<(), &'static str> {
    let mut input = [0u8; 1024];
    let count = job_input::read_standard_input(stdin, &mut input)?;
    let text = answer(&input[..count]);
    job_input::write_answer(stdout, text.as_bytes())
}

fn main(rt: HostRuntime) {
    job_input::tell_failure(&rt, "sweep", run(&mut rt.stdin(), &mut rt.stdout()));
}
