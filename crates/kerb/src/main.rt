// Whether the rig of a job touches a kerb: a job from standard input, as `sweep` reads it, and the name of the kerb's file as the only argument.
// What cannot be read or written is told on standard error, because the status is 0 whatever comes, as the README promises.
#![tactic(auto)]

ghost use Rattle.kerbed.specs.Kerbed.{kerbed_of};
ghost use Rattle.answer_text.specs.Answers.{TextIs};
ghost use Rattle.kerb_told.specs.Printed.{printed_kerb};

use answer_text::Text;
use std::fs::File;
use std::io::{Read, Write};
use std::rt::Env;

fn answer(job: &[u8], geometry: &[u8]) -> Text
    ensures { TextIs (printed_kerb (kerbed_of job.now geometry.now)) result }
{
    kerb_told::kerb_text(kerbed::check_geometry(job, geometry))
}

// The file that the argument names, whose name is at most 131,071 bytes on Linux. A path is text here, so a name that is no UTF-8 opens nothing.
fn open_file(rt: HostRuntime) -> Option<File> {
    let mut name = [0u8; 131072];
    let count = rt.arg(1, &mut name).ok()?;
    let name = str::from_utf8(&name[..count]).ok()?;
    File::open(&rt, name).ok()
}

// The file is opened only once the job is read: with standard input closed it would take its place.
// The geometry has room for one byte more than the longest has, so that bytes left over are seen.
fn run<R: Read, W: Write>(
    rt: HostRuntime,
    stdin: &mut R,
    stdout: &mut W,
) -> Result<(), &'static str> {
    if !job_input::has_argument(rt, 1) || job_input::has_argument(rt, 2) {
        return Err("expected one argument: the name of the kerb's file");
    }
    let mut job = [0u8; 1024];
    let count = job_input::read_standard_input(stdin, &mut job)?;
    let mut file = open_file(rt).ok_or("the kerb's file cannot be opened")?;
    let mut geometry = [0u8; 8010];
    let length = job_input::read_input(&mut file, &mut geometry).map_err(
        |_| "the kerb's file cannot be read",
    )?;
    let text = answer(&job[..count], &geometry[..length]);
    job_input::write_answer(stdout, text.as_bytes())
}

// Kept: the new form is no plainer: `settings` has the same one call, with another name and another `run`.
fn main(rt: HostRuntime) {
    job_input::tell_failure(&rt, "kerb", run(rt, &mut rt.stdin(), &mut rt.stdout()));
}
