// Whole numbers. Division rounded towards minus and plus infinity, as the bounds of a variable need it; the laws of ℤ
// that every proof above cites stand in proofs/.
#![tactic(auto)]

ghost use Rattle.std.specs.Prelude.{◌≡◌, pos, ◌<ℤ◌};
ghost use Rattle.integer.specs.Division.{floor_div, ceil_div};

// floor (p / g). The machine's division rounds towards zero; a negative dividend is moved up by one first.
// No step overflows, at any dividend: −2^63 / −1 does not arise, since g is above 0.
pub fn floor_div(p: i64, g: i64) -> i64
    requires { pos 0 <ℤ g }
    ensures { result ≡ floor_div p g }
{
    let is_natural = p >= 0;
    if is_natural { p / g } else { (p + 1) / g - 1 }
}

// ceiling (p / g), the mirror of floor_div.
pub fn ceil_div(p: i64, g: i64) -> i64
    requires { pos 0 <ℤ g }
    ensures { result ≡ ceil_div p g }
{
    let is_at_most_zero = p <= 0;
    if is_at_most_zero {
        p / g
    } else {
        (p - 1) / g + 1
    }
}
