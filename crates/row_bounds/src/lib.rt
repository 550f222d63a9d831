// The bounds that one row implies, from its minimum activity: of one variable, and of all in one sweep.
#![tactic(auto)]

ghost use Rattle.std.specs.Prelude.{not, ◌≡◌, ◌<◌, ◌+◌, ◌*◌, pos, ◌<ℤ◌, length};
ghost use Rattle.model.specs.Box.{lower, upper, with_bounds};
ghost use Rattle.row.specs.Moved.{moved_bounds};
ghost use Rattle.row.specs.Propagation.{new_lower, new_upper, implied_box, stays};
ghost use Rattle.row.specs.Kinds.{signed};
ghost use Rattle.row.specs.ValidRow.{IsSign, ImpliesBounds, ImpliesBox};

use integer::{ceil_div, floor_div};

// The upper bound that a row with a coefficient a above 0 leaves: floor((b − least + a·l) / a) where that is below u.
// It is so exactly if a·u is above b − least + a·l, and only then is anything divided.
fn new_upper(a: i32, b: i64, least: i64, l: i32, u: i32) -> i32
    requires implies_bounds { ImpliesBounds a b least l u }
    requires pos_bound { pos 0 <ℤ a }
    ensures { result ≡ new_upper a b least l u }
{
    let g = a as i64;
    let room = b - least + g * (l as i64);
    if g * (u as i64) <= room {
        return u;
    }
    floor_div(room, g) as i32
}

// The lower bound that a row with a coefficient −g below 0 leaves: ceiling((least + g·u − b) / g) where
// that is above l.
fn new_lower(a: i32, b: i64, least: i64, l: i32, u: i32) -> i32
    requires implies_bounds { ImpliesBounds a b least l u }
    requires a_bound { a <ℤ pos 0 }
    ensures { result ≡ new_lower a b least l u }
{
    let g = -(a as i64);
    let need = least + g * (u as i64) - b;
    if need <= g * (l as i64) {
        return l;
    }
    ceil_div(need, g) as i32
}

// Gives variable j the bounds that its coefficient a implies, and says whether one moved.
pub fn tighten_bounds_at(a: i32, b: i64, least: i64, bounds: &mut [i32], j: usize) -> bool
    requires implies_bounds { ImpliesBounds a b least (lower bounds.old j) (upper bounds.old j) }
    requires j_in_bounds { 2 * j + 1 < length bounds.old }
    ensures left { let B = bounds.old in
        bounds.new ≡
        with_bounds B j (new_lower a b least (lower B j) (upper B j)) (new_upper a b least (lower B j) (upper B j)) }
    ensures moved { result ≡ not (stays a b least (lower bounds.old j) (upper bounds.old j)) }
{
    if a > 0 {
        let l = bounds[2 * j];
        let u = bounds[2 * j + 1];
        let v = new_upper(a, b, least, l, u);
        if v == u {
            return false;
        }
        bounds[2 * j + 1] = v;
        return true;
    }
    if a < 0 {
        let l = bounds[2 * j];
        let u = bounds[2 * j + 1];
        let v = new_lower(a, b, least, l, u);
        if v == l {
            return false;
        }
        bounds[2 * j] = v;
        return true;
    }
    false
}

// Gives each variable the bounds that the row, or its negated form by the sign, implies, and says how many moved: at
// most one of each variable.
pub fn tighten_bounds(coefs: &[i32], sign: i32, b: i64, least: i64, bounds: &mut [i32]) -> u32
    requires implies_box { ImpliesBox (length coefs.now) coefs.now b least bounds.old }
    requires sign { IsSign sign }
    ensures left { let A = coefs.now in
        bounds.new ≡ implied_box (length A) (signed sign A) b least bounds.old }
    ensures moved { let A = coefs.now in
        let B = bounds.old in
        result ≡ moved_bounds (length A) B (implied_box (length A) (signed sign A) b least B) }
{
    let mut moved: u32 = 0;
    for (j, &a) in coefs.iter().enumerate() {
        if tighten_bounds_at(sign * a, b, least, bounds, j) {
            moved += 1;
        }
    }
    moved
}
