// What is done with a box as a whole, wherever a box stands: in a model, beside one, or for a side of a probe.
#![tactic(auto)]

ghost use Rattle.std.specs.Prelude.{◌≡◌, ℕ, ◌*◌, ◌+◌, ◌<◌, ◌≤◌, length};
ghost use Rattle.integer.specs.Order.{max_z, min_z};
ghost use Rattle.model.specs.Box.{empty_box, hull as hulled, is_empty, is_free, same_list};
ghost use Rattle.model.specs.Valid.{ValidBox};

// Whether a box that passed the checks is empty. Its first variable tells: only the empty box has a lower bound above
// its upper.
pub fn is_empty(bounds: &[i32]) -> bool
    requires { 2 ≤ length bounds.now }
    ensures { (n : ℕ) → 0 < n → ValidBox n bounds.now → result ≡ is_empty n bounds.now }
{
    bounds[1] < bounds[0]
}

// Makes the box empty.
pub fn make_empty(bounds: &mut [i32])
    ensures { (n : ℕ) → length bounds.old ≡ 2 * n → bounds.new ≡ empty_box n }
{
    for j in 0..bounds.len() / 2 {
        bounds[2 * j] = 1;
        bounds[2 * j + 1] = 0;
    }
}

// Whether the bounds of variable k are 0 and 1.
pub fn is_free(bounds: &[i32], k: usize) -> bool
    requires { 2 * k + 1 < length bounds.now }
    ensures { result ≡ is_free bounds.now k }
{
    if bounds[2 * k] != 0 {
        return false;
    }
    bounds[2 * k + 1] == 1
}

// Copies a box over another of the same length. By a loop: `copy_from_slice` is compiled to a call of memmove, a name that
// the library for C would then need from outside (`docs/INTEGRATION.md` names the two that it needs).
pub fn copy_box(from: &[i32], to: &mut [i32])
    requires { length from.now ≡ length to.old }
    ensures { to.new ≡ from.now }
{
    for i in 0..from.len() {
        to[i] = from[i];
    }
}

// Whether two boxes have the same bounds.
pub fn same_box(xs: &[i32], ys: &[i32]) -> bool
    requires { length xs.now ≡ length ys.now }
    ensures { result ≡ same_list xs.now ys.now }
{
    xs == ys
}

pub fn lesser(x: i32, y: i32) -> i32
    ensures { result ≡ min_z x y }
{
    x.min(y)
}

pub fn greater(x: i32, y: i32) -> i32
    ensures { result ≡ max_z x y }
{
    x.max(y)
}

// The smallest box that contains both of two.
pub fn hull(zero: &[i32], one: &[i32], bounds: &mut [i32])
    requires zero_len { length zero.now ≡ length bounds.old }
    requires one_len { length one.now ≡ length bounds.old }
    ensures { (n : ℕ) → length bounds.old ≡ 2 * n → bounds.new
        ≡ hulled n zero.now one.now }
{
    for j in 0..bounds.len() / 2 {
        bounds[2 * j] = lesser(zero[2 * j], one[2 * j]);
        bounds[2 * j + 1] = greater(zero[2 * j + 1], one[2 * j + 1]);
    }
}
