// The two turns by themselves, each answered as a number and the entries of a lent run.
ghost use Rattle.std.specs.Prelude.{◌≡◌};
ghost use Rattle.refusal.specs.Numbers.{as_answer};
ghost use Rattle.heading.specs.PathTurn.{path_turn};
ghost use Rattle.unit.specs.Turn.{unit_turn};
ghost use Rattle.answer_run.specs.Answers.{Answered};
ghost use Rattle.answer_run.specs.Turns.{told_of, path_entries, path_told, vector_entries, unit_told};

use heading::Advance;
use plane::Vec2;
use refusal::Fault;

// The entries at the start of the run and 0, or the number of the turn's refusal; 21, before either, where the run has no room for them.
fn tell<const N: usize>(turn: Result<[i64; N], Fault>, answer: &mut [i64]) -> u32
    ensures { Answered N (told_of (as_answer turn.entry)) answer.old result answer.new }
{
    if answer.len() < N {
        return crate::too_short();
    }
    match turn {
        Ok(entries) => {
            crate::put_entries(answer, 0, entries);
            0
        }
        Err(fault) => u32::from(fault.number()),
    }
}

fn path_entries(a: Advance) -> [i64; 4]
    ensures { result ≡ path_entries a }
{
    [a.heading.x, a.heading.y, a.shift.x, a.shift.y]
}

fn vector_entries(d: Vec2) -> [i64; 2]
    ensures { result ≡ vector_entries d }
{
    [d.x, d.y]
}

// The path turn by itself: 0 with the new heading and the move, or 21, 6, 7 or 8.
// Kept: the new form is no plainer: the one caller, the C interface, has two numbers, and a `Vec2` of them would be made there in place of here.
pub fn path_turn(gx: i64, gy: i64, s: u32, r: i32, answer: &mut [i64]) -> u32
    ensures { Answered 4 (path_told (path_turn (record { x = gx; y = gy }) s r)) answer.old result answer.new }
{
    // No turn is worked out that cannot be told.
    if answer.len() < 4 {
        return crate::too_short();
    }
    let turn = heading::turn_path(Vec2 { x: gx, y: gy }, s, r);
    tell(turn.map(path_entries), answer)
}

// The turn of a single unit: 0 with its new vector, or 21, 27 or 22.
pub fn unit_turn(dx: i64, dy: i64, fx: i64, fy: i64, wheelbase: u32, answer: &mut [i64]) -> u32
    ensures { Answered 2 (unit_told (unit_turn (record { x = dx; y = dy }) (record { x = fx; y = fy }) wheelbase)) answer.old result answer.new }
{
    if answer.len() < 2 {
        return crate::too_short();
    }
    let turn = unit::turn_unit(Vec2 { x: dx, y: dy }, Vec2 { x: fx, y: fy }, wheelbase);
    tell(turn.map(vector_entries), answer)
}
