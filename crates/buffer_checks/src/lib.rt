// One buffer of a model: its length, and what its numbers must be. The tests require nothing but what they say, and
// answer for every length. `in_range`, `is_ordered`, `is_narrow` and `is_bits` go to the buffer's end and keep a
// flag: a loop without a branch for each number is compiled to take 4 to 16 numbers at a time.
#![tactic(auto)]

ghost use Rattle.std.specs.Prelude.{true, ◌≡◌, ◌*◌, eqb};
ghost use Rattle.model.specs.Box.{is_empty};
ghost use Rattle.model.specs.Checks.{in_range, ordered, narrow, bits};
ghost use Rattle.model.specs.Limits.{max_bound, min_bound};

use model::MAX_WIDTH;

// Whether len is a · b. By division: no product is made that could overflow.
pub fn is_product(len: usize, a: usize, b: usize) -> bool
    ensures { result ≡ eqb len (a * b) }
{
    if b == 0 {
        return len == 0;
    }
    if len % b != 0 {
        return false;
    }
    len / b == a
}

// Whether len is 4n², the length of a table.
pub fn is_table_length(n: usize, len: usize) -> bool
    ensures { result ≡ eqb len (4 * (n * n)) }
{
    if len % 4 != 0 {
        return false;
    }
    is_product(len / 4, n, n)
}

// Whether every number of xs lies between low and high (checks 6, 8 and 9).
pub fn in_range(xs: &[i32], low: i32, high: i32) -> bool
    ensures { result ≡ in_range low high xs.now }
{
    let mut ok = true;
    for &x in xs {
        ok &= (low <= x) & (x <= high);
    }
    ok
}

// Whether no lower bound is above its upper.
pub fn is_ordered(bounds: &[i32]) -> bool
    ensures { result ≡ ordered bounds.now }
{
    let mut ok = true;
    for j in 0..bounds.len() / 2 {
        ok &= bounds[2 * j] <= bounds[2 * j + 1];
    }
    ok
}

// Whether no u − l is over 4,096. In range, none overflows.
pub fn is_narrow(bounds: &[i32]) -> bool
    requires { in_range min_bound max_bound bounds.now ≡ true }
    ensures { result ≡ narrow bounds.now }
{
    let mut ok = true;
    for j in 0..bounds.len() / 2 {
        ok &= bounds[2 * j + 1] - bounds[2 * j] <= MAX_WIDTH;
    }
    ok
}

// Whether the box is the empty one: every l = 1 and every u = 0.
pub fn is_empty_box(n: usize, bounds: &[i32]) -> bool
    ensures { result ≡ is_empty n bounds.now }
{
    if !is_product(bounds.len(), 2, n) {
        return false;
    }
    for j in 0..n {
        if bounds[2 * j] != 1 {
            return false;
        }
        if bounds[2 * j + 1] != 0 {
            return false;
        }
    }
    true
}

// Whether every byte is 0 or 1 (check 10).
pub fn is_bits(table: &[u8]) -> bool
    ensures { result ≡ bits table.now }
{
    let mut ok = true;
    for &t in table {
        ok &= t < 2;
    }
    ok
}
