// Kerbs for programs in C and Rust.
ghost use Rattle.kerb_line.specs.Kerb.{kerb_runs};
ghost use Rattle.turning.specs.Kerbs.{TicksCalled, TouchCalled};

use kerb_line::Kerb;

// How many entries the answer run of a reading and of a report must have.
const TICKS_ENTRIES: usize = 1;

const TOUCH_ENTRIES: usize = 3;

// A kerb's geometry into two runs of ticks: 0 with the number of its vertices, else the refusal's number, with the byte beside 12 and 13.
#[unsafe(no_mangle)]
pub extern "C" fn turning_kerb_ticks(
    geometry: &[u8],
    xs: &mut [i32],
    ys: &mut [i32],
    answer: &mut [i64],
) -> u32
    ensures { TicksCalled geometry.now
        (kerb_runs xs.old ys.old)
        answer.old
        result
        (kerb_runs xs.new ys.new)
        answer.new }
{
    if answer.len() < TICKS_ENTRIES {
        return answer_run::too_short();
    }
    kerb_told::ticks::tell_ticks(kerb_reader::read_kerb(geometry, xs, ys), answer)
}

// Whether the rig of a job, from its own placement, touches a kerb of so many vertices: 0 with the first step and its lowest point, or none; else the refusal's number.
#[unsafe(no_mangle)]
pub extern "C" fn turning_kerb_touch(
    job: &[u8],
    vertices: usize,
    xs: &[i32],
    ys: &[i32],
    answer: &mut [i64],
) -> u32
    ensures { TouchCalled job.now vertices (kerb_runs xs.now ys.now) answer.old result answer.new }
{
    if answer.len() < TOUCH_ENTRIES {
        return answer_run::too_short();
    }
    let kerb = Kerb {
        count: vertices,
        xs,
        ys,
    };
    kerb_told::touches::tell_touch(kerbed::check_ticks(job, kerb), answer)
}
