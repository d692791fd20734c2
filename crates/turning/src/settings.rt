// The list of settings for programs in C and Rust.
ghost use Rattle.path.specs.Laying.{path_runs};
ghost use Rattle.reaches.specs.Cells.{reach_runs};
ghost use Rattle.turning.specs.Settings.{SettingsCalled};

use bogie::Rail;
use path::PathRoom;
use reaches::ReachRoom;

// How many entries the answer run of a list must have.
const SETTINGS_ENTRIES: usize = 7;

// The best settings of a job's last wheelbase, on the caller's seven runs: 0 with the list, else the refusal's number, with the byte where the record is refused.
// Kept: the C interface needs it: it hands over each run and each number by itself.
#[unsafe(no_mangle)]
pub extern "C" fn turning_settings(
    job: &[u8],
    lowest: u32,
    pitch: u32,
    number: u32,
    xs: &mut [i32],
    ys: &mut [i32],
    gxs: &mut [i32],
    gys: &mut [i32],
    left: &mut [i32],
    right: &mut [i32],
    marks: &mut [marks::Mark],
    answer: &mut [i64],
) -> u32
    ensures { SettingsCalled job.now (record { lowest = lowest; pitch = pitch; number = number })
        (path_runs xs.old ys.old gxs.old gys.old)
        (reach_runs left.old right.old marks.old)
        answer.old
        result
        (path_runs xs.new ys.new gxs.new gys.new)
        (reach_runs left.new right.new marks.new)
        answer.new }
{
    if answer.len() < SETTINGS_ENTRIES {
        return answer_run::too_short();
    }
    let rail = Rail {
        lowest,
        pitch,
        number,
    };
    let mut path_room = PathRoom { xs, ys, gxs, gys };
    let mut room = ReachRoom { left, right, marks };
    entries::lists::tell_offered(
        offered::list_into(job, rail, &mut path_room, &mut room),
        answer,
    )
}
