// Whole-number division as the papers round it.
#![tactic(auto)]

ghost use Rattle.std.specs.Prelude.{◌≡◌};
ghost use Rattle.exact.specs.Nearest.{nearest_z, Divisor, NearestRule};

// The nearest whole number to n / d, halves away from zero.
// By quotient and remainder, so that no doubled or shifted dividend can overflow.
pub fn nearest(n: i64, d: i64) -> i64
    requires { Divisor d }
    ensures { result ≡ nearest_z n d }
{
    let q = n / d;
    let r = n % d;
    if r < 0 {
        if d + r <= -r { q - 1 } else { q }
    } else {
        if d - r <= r { q + 1 } else { q }
    }
}

// Claim: what is written as `nearest_z` is the paper's nearest whole number, halves away from zero.
pub fn nearest_rule()
    ensures { NearestRule }
{}
