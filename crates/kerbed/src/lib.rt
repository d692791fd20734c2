// From a job's bytes and a kerb to the answer that is printed.
#![tactic(auto)]

ghost use Rattle.std.specs.Prelude.{◌≡◌};
ghost use Rattle.path.specs.Lent.{path_of};
ghost use Rattle.kerb_line.specs.Lent.{runs_of};
ghost use Rattle.kerb_report.specs.Answers.{as_report};
ghost use Rattle.kerbed.specs.Answers.{as_kerbed};
ghost use Rattle.kerb_report.specs.Ranges.{ReportEnsures};
ghost use Rattle.kerbed.specs.Kerbed.{placed_rig};
ghost use Rattle.kerbed.specs.Ranges.{TicksEnsures, KerbedEnsures};
ghost use Rattle.kerbed.specs.Inner.{Placeable, Faultless, AcceptedEnsures, JobEnsures, SurveyEnsures};
ghost use Rattle.kerbed.specs.Claims.{FirstBytes, ReadPasses};

use job::Job;
use kerb_line::Kerb;
use kerb_reader::KerbRefusal;
use kerb_report::Touch;
use path::{Path, PathRoom};
use refusal::Fault;
use run::RunRefusal;
use swept::SweepRefusal;

// The report of a vehicle placed at station 0 of a laid path.
fn placed_report(j: Job, asked: usize, path: Path, kerb: Kerb) -> Result<Option<Touch>, RunRefusal>
    requires { Placeable j asked (path_of path) }
    ensures { ReportEnsures (placed_rig j (path_of path.entry)) asked
        (path_of path.entry)
        kerb.entry.count
        (runs_of kerb.entry)
        (as_report result) }
{
    let start = walk::tests::station_at(path, 0);
    let w = walk::moving::start(j.vehicle, start.heading);
    kerb_report::report(w, asked, path, kerb)
}

// The path is laid in runs of its own, with room for any.
fn report_job(j: Job, kerb: Kerb) -> Result<Option<Touch>, SweepRefusal>
    requires { Faultless j }
    ensures { JobEnsures j kerb.entry.count (runs_of kerb.entry) (as_kerbed result) }
{
    let mut room = PathRoom {
        xs: &mut [0i32; 2001],
        ys: &mut [0i32; 2001],
        gxs: &mut [0i32; 2001],
        gys: &mut [0i32; 2001],
    };
    match path::lay(j, &mut room) {
        Ok(asked) => placed_report(j, asked, room.laid(), kerb).map_err(swept::run_refused),
        Err(fault) => Err(SweepRefusal::Refused(fault.at(0))),
    }
}

// The job that the bytes are, or its refusal.
fn read(job: &[u8]) -> Result<Job, SweepRefusal>
    ensures { AcceptedEnsures job.now result }
{
    job_reader::read_job(job).map_err(SweepRefusal::Refused)
}

// A job's bytes and a kerb's ticks: the job's refusal comes first, then the kerb's, then the walk's.
pub fn check_ticks(job: &[u8], kerb: Kerb) -> Result<Option<Touch>, SweepRefusal>
    ensures { TicksEnsures job.now kerb.entry.count (runs_of kerb.entry) (as_kerbed result) }
{
    let j = read(job)?;
    report_job(j, kerb)
}

// The kerb is read into runs of its own, with room for any.
fn survey_job(j: Job, geometry: &[u8]) -> Result<Option<Touch>, SweepRefusal>
    requires { Faultless j }
    ensures { SurveyEnsures j geometry.now (as_kerbed result) }
{
    let mut xs = [0i32; 500];
    let mut ys = [0i32; 500];
    match kerb_reader::read_kerb(geometry, &mut xs, &mut ys) {
        Ok(count) => report_job(
            j,
            Kerb {
                count,
                xs: &xs,
                ys: &ys,
            },
        ),
        Err(KerbRefusal::Field(refusal)) => Err(SweepRefusal::Refused(refusal)),
        Err(KerbRefusal::NoRoom) => Err(SweepRefusal::Refused(Fault::RunTooShort.at(0))),
    }
}

// A job's bytes and a geometry's: the job's refusal comes before the kerb's.
pub fn check_geometry(job: &[u8], geometry: &[u8]) -> Result<Option<Touch>, SweepRefusal>
    ensures { KerbedEnsures job.now geometry.now (as_kerbed result) }
{
    let j = read(job)?;
    survey_job(j, geometry)
}

// Claim: of longer inputs the first 1,024 bytes of the job and the first 8,010 of the geometry decide the answer.
pub fn first_bytes()
    ensures { FirstBytes }
{}

// Claim: a kerb that was read passes the report's 21 and 26.
pub fn read_passes()
    ensures { ReadPasses }
{}
