// Rows with j put as k (w = 0) or as 1 − k (w = 1), in place: one row, and all rows of a model that passed the checks
// (02, C-19: "puts that into every row, zeroes j's column"). `w` is a number, the value of j at k = 0: the place of a tie
// is reckoned with it.
#![tactic(auto)]

ghost use Rattle.std.specs.Prelude.{cond, [], ◌≡◌, ◌*◌, ◌+◌, ◌<◌, ◌≤◌, eqb, ◌-ℤ◌, length, set};
ghost use Rattle.integer.specs.Range.{Within};
ghost use Rattle.model.specs.Box.{at};
ghost use Rattle.model.specs.Limits.{coef_size, rhs_size};
ghost use Rattle.model.specs.Model.{model_of};
ghost use Rattle.model.specs.Rows.{row_of, rows_of, splice};
ghost use Rattle.ties.specs.TiedRow.{row_fits, rows_fit, tied_coef, tied_coefs, tied_rhs, tie_coefs_to, tie_rhs_to};
ghost use Rattle.tied_row.specs.SmallRow.{SmallRow, SmallRows};

use matrix::coefficients;
use model::{MAX_COEF, MAX_RHS};

// The coefficient of k: a_k + a_j, or a_k − a_j.
fn tied_coef(w: u32, ak: i32, aj: i32) -> i32
    requires { Within coef_size ak × Within coef_size aj }
    ensures { result ≡ tied_coef w ak aj }
{
    if w == 0 {
        return ak + aj;
    }
    ak - aj
}

// The right side: b, or b − a_j.
fn tied_rhs(w: u32, aj: i32, b: i32) -> i32
    requires { Within coef_size aj × Within rhs_size b }
    ensures { result ≡ cond (eqb w 0) b (b -ℤ aj) }
{
    if w == 0 {
        return b;
    }
    b - aj
}

// Whether the row's numbers stay within their limits.
fn row_fits(coefs: &[i32], b: i32, k: usize, j: usize, w: u32) -> bool
    requires { SmallRow coefs.now b k j }
    ensures { result ≡ row_fits k j w coefs.now b }
{
    let a = tied_coef(w, coefs[k], coefs[j]);
    let rhs = tied_rhs(w, coefs[j], b);
    ((-MAX_COEF <= a) & (a <= MAX_COEF)) & ((-MAX_RHS <= rhs) & (rhs <= MAX_RHS))
}

// Puts it into one row; `b` is its right side.
fn tie_row(coefs: &mut [i32], b: &mut i32, k: usize, j: usize, w: u32)
    requires { SmallRow coefs.old b.old k j }
    ensures row { coefs.new ≡ tied_coefs k j w coefs.old }
    ensures rhs_tied { b.new ≡ tied_rhs j w coefs.old b.old }
{
    let aj = coefs[j];
    let ak = coefs[k];
    let old = *b;
    coefs[k] = tied_coef(w, ak, aj);
    coefs[j] = 0;
    *b = tied_rhs(w, aj, old);
}

// The same of row i.
fn row_fits_at(n: usize, coefs: &[i32], rhs: &[i32], i: usize, k: usize, j: usize, w: u32) -> bool
    requires n_in_bounds { (i * n + n ≤ length coefs.now) × (i < length rhs.now) }
    requires small_row { SmallRow (row_of n coefs.now i) (at rhs.now i) k j }
    ensures { result ≡ row_fits k j w (row_of n coefs.now i) (at rhs.now i) }
{
    row_fits(coefficients(n, coefs, i), rhs[i], k, j, w)
}

// Whether every row's numbers stay within their limits. Nothing is written.
pub fn rows_fit(n: usize, m: usize, coefs: &[i32], rhs: &[i32], k: usize, j: usize, w: u32) -> bool
    requires { SmallRows n m (rows_of coefs.now rhs.now []) × ((k < n) × (j < n)) }
    ensures { result ≡ rows_fit k j w (model_of n m [] (rows_of coefs.now rhs.now [])) }
{
    for i in 0..m {
        if !row_fits_at(n, coefs, rhs, i, k, j, w) {
            return false;
        }
    }
    true
}

// Puts it into row i.
fn tie_row_at(n: usize, coefs: &mut [i32], rhs: &mut [i32], i: usize, k: usize, j: usize, w: u32)
    requires n_in_bounds { (i * n + n ≤ length coefs.old) × (i < length rhs.old) }
    requires small_row { SmallRow (row_of n coefs.old i) (at rhs.old i) k j }
    ensures row { let C = coefs.old in
        coefs.new ≡ splice C (tied_coefs k j w (row_of n C i)) (i * n) }
    ensures rhs_tied { let C = coefs.old in
        rhs.new ≡ set rhs.old i (tied_rhs j w (row_of n C i) (at rhs.old i)) }
{
    let start = i * n;
    let end = start + n;
    tie_row(&mut coefs[start..end], &mut rhs[i], k, j, w)
}

// Puts it into every row.
pub fn tie_rows(n: usize, m: usize, coefs: &mut [i32], rhs: &mut [i32], k: usize, j: usize, w: u32)
    requires { SmallRows n m (rows_of coefs.old rhs.old []) × ((k < n) × (j < n)) }
    ensures rows { coefs.new ≡ tie_coefs_to m n k j w coefs.old }
    ensures rhs_tied { rhs.new ≡ tie_rhs_to m n j w coefs.old rhs.old }
{
    for i in 0..m {
        tie_row_at(n, coefs, rhs, i, k, j, w);
    }
}
