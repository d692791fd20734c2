// Whether a walk, as it would go on, touches a kerb, and where first. Nothing here writes a run.
#![tactic(auto)]

ghost use Rattle.std.specs.Prelude.{◌≡◌, ◌+◌};
ghost use Rattle.std.proofs.lemmas.List.Edits.{sets};
ghost use Rattle.refusal.specs.Numbers.{fault_number};
ghost use Rattle.path.specs.Lent.{path_of};
ghost use Rattle.walk.specs.Drawn.{view, outcome_of, station_at};
ghost use Rattle.walk.specs.Moving.{AdvanceEnsures};
ghost use Rattle.points.specs.Points.{no_points, rig_points};
ghost use Rattle.run.specs.Walking.{steps_left};
ghost use Rattle.kerb_line.specs.Kerb.{vertices};
ghost use Rattle.kerb_line.specs.Lent.{runs_of};
ghost use Rattle.kerb_report.specs.Answers.{as_report};
ghost use Rattle.kerb_report.specs.Report.{look_ahead};
ghost use Rattle.kerb_report.specs.Ranges.{ReportEnsures};
ghost use Rattle.kerb_report.specs.Looking.{report_refusal};
ghost use Rattle.kerb_report.specs.Requires.{Ahead, OnPath, Steppable};

use kerb_line::Kerb;
use marks::POINT_CAPACITY;
use path::Path;
use plane::Vec2;
use refusal::Fault;
use run::RunRefusal;
use walk::{StepRefusal, Walk};

// The first step whose move touches a kerb, and the lowest point that does.
#[derive(Clone, Copy, PartialEq, Eq)]
pub struct Touch {
    pub step: usize,
    pub point: usize,
}

// The next step of a walk that is not at its last station.
fn next_step(w: &mut Walk, path: Path) -> Result<(), StepRefusal>
    requires { Steppable w.old (path_of path) }
    ensures { AdvanceEnsures w.old
        (station_at (path_of path.entry) w.old.station).position
        (station_at (path_of path.entry) (w.old.station + 1)).position
        (record { answer = outcome_of result; walk = w.new }) }
{
    let old = walk::tests::station_at(path, w.station).position;
    let new = walk::tests::station_at(path, w.station + 1).position;
    walk::moving::advance(w, old, new)
}

// The points of a walk at the station that it has reached; the places past them are zero.
fn points_here(w: Walk, path: Path) -> [Vec2; POINT_CAPACITY]
    requires { OnPath w (path_of path) }
    ensures { result ≡ sets no_points 0 (rig_points w.vehicle w.d
        (station_at (path_of path.entry) w.station).position) }
{
    let front = walk::tests::station_at(path, w.station).position;
    points::points(w.vehicle, w.d, front)
}

// The walk goes on, on a copy, until a point touches, a step is refused or the last station is reached. Each step hands its points to the next, so that no point is placed twice.
fn look_ahead(w: Walk, asked: usize, path: Path, kerb: Kerb) -> Result<Option<Touch>, RunRefusal>
    requires { Ahead (view w) asked (path_of path) kerb.count (runs_of kerb) }
    ensures { as_report result ≡ look_ahead (steps_left asked (view w)) asked
        (path_of path.entry)
        (vertices kerb.entry.count (runs_of kerb.entry))
        (view w) }
{
    let count = marks::point_count(w.vehicle);
    let mut here = w;
    let mut olds = points_here(w, path);
    for step in w.station + 1..asked {
        if let Err(refusal) = next_step(&mut here, path) {
            return Err(RunRefusal::Stopped(run::stop_at(refusal, step)));
        }
        let news = points_here(here, path);
        if let Some(point) = kerb_line::lowest_touch(&olds[..count], &news[..count], kerb) {
            return Ok(Some(Touch { step, point }));
        }
        olds = news;
    }
    Ok(None)
}

// 21 for the path and then for the kerb, 26 likewise, then 27.
#[tactic(auto, unfolding(crate::specs::Looking::report_refusal))]
fn report_tested(w: Walk, asked: usize, path: Path, kerb: Kerb) -> Result<(), Fault>
    ensures { fault_number result ≡ report_refusal (view w) asked (path_of path.entry) kerb.entry.count (runs_of kerb.entry) }
{
    if !walk::tests::path_lent(asked, path) | !kerb_line::kerb_lent(kerb) {
        return Err(Fault::RunTooShort);
    }
    if !walk::tests::path_sound(asked, path) | !kerb_line::kerb_sound(kerb) {
        return Err(Fault::PathUnsound);
    }
    if !walk::tests::record_sound(asked, w) {
        return Err(Fault::RecordUnsound);
    }
    Ok(())
}

// The first touch of a walk with a kerb, on a path that it goes on along; any record, path and kerb are tested first.
pub fn report(w: Walk, asked: usize, path: Path, kerb: Kerb) -> Result<Option<Touch>, RunRefusal>
    ensures { ReportEnsures (view w) asked
        (path_of path.entry)
        kerb.entry.count
        (runs_of kerb.entry)
        (as_report result) }
{
    if let Err(fault) = report_tested(w, asked, path, kerb) {
        return Err(RunRefusal::Refused(fault));
    }
    look_ahead(w, asked, path, kerb)
}
