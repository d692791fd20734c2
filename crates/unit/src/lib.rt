// One unit of a rig: its vector at the start, its turn, its hitch and its fold limit.
#![tactic(auto)]

ghost use Rattle.std.specs.Prelude.{◌≡◌};
ghost use Rattle.plane.specs.Wheelbase.{is_wheelbase};
ghost use Rattle.refusal.specs.Numbers.{as_answer};
ghost use Rattle.unit.specs.Turn.{placed_by, turned_by, too_far, unit_turn, Wheelbase, Placeable, Turnable, PlacedRule, TurnRule};
ghost use Rattle.unit.specs.Coupling.{hitch_offset, fold_allowed, Hitched, Coupled, HitchRule};
ghost use Rattle.unit.specs.Construction.{Construction1988};

use plane::Vec2;
use refusal::Fault;

mod mirror;

// The vector of a unit at the start, along the heading g.
pub fn placed(g: Vec2, l: i64) -> Vec2
    requires { Placeable g l }
    ensures { result ≡ placed_by g l }
{
    plane::scaled(g, l, 1000000)
}

// Where the hitch lies from the rear axle, h ahead of it.
pub fn hitch_offset(d: Vec2, h: i64, l: i64) -> Vec2
    requires { Hitched d h l }
    ensures { result ≡ hitch_offset d h l }
{
    plane::scaled(d, h, l)
}

// Whether a unit d may stand so behind the unit a.
pub fn fold_allowed(a: Vec2, d: Vec2, limit: i64, la: i64, ld: i64) -> bool
    requires { Coupled a d limit la ld }
    ensures { result ≡ fold_allowed a d limit la ld }
{
    limit * la * ld <= 1000 * plane::dot(a, d)
}

// Whether the move f is longer than l, for any f: a coordinate beyond l is told before it is squared.
pub fn moves_too_far(f: Vec2, l: i64) -> bool
    requires { Wheelbase l }
    ensures { result ≡ too_far f l }
{
    !plane::in_box(f, l) || l * l < plane::dot(f, f)
}

// The vector of a unit whose front point moves by f.
pub fn turned(d: Vec2, f: Vec2, l: i64) -> Vec2
    requires { Turnable d f l }
    ensures { result ≡ turned_by d f l }
{
    plane::settle(mirror::mirrored_vector(d, f), l)
}

fn wheelbase_allowed(wheelbase: u32) -> bool
    ensures { result ≡ is_wheelbase wheelbase }
{
    (5000..=200000).contains(&wheelbase)
}

// The turn of a single unit, for any vector, move and wheelbase: 27, then 22, then the new vector.
pub fn turn_unit(d: Vec2, f: Vec2, wheelbase: u32) -> Result<Vec2, Fault>
    ensures { as_answer result ≡ unit_turn d f wheelbase }
{
    let l = i64::from(wheelbase);
    if !wheelbase_allowed(wheelbase) || !plane::has_length(d, l) {
        return Err(Fault::RecordUnsound);
    }
    if moves_too_far(f, l) {
        return Err(Fault::MoveTooLong);
    }
    Ok(turned(d, f, l))
}

// Claim: a placed vector has the length of its unit.
pub fn placed_rule()
    ensures { PlacedRule }
{}

// Claim: a turned unit keeps its length, lies within two ticks of the exact mirror image's line, and on its side.
pub fn turn_rule()
    ensures { TurnRule }
{}

// Claim: a hitch lies at the front point, at the axle or behind it, as its distance says.
pub fn hitch_rule()
    ensures { HitchRule }
{}

// Claim: the mirror image is the unit turned about the centre of the construction of 1988.
pub fn construction_1988()
    ensures { Construction1988 }
{}
