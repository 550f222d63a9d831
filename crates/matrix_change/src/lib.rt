// Row r of a matrix that a call may change: the rule is lent its coefficients, right side and kind in place, and every
// other row stays as it was.
#![tactic(auto)]

ghost use Rattle.std.specs.Prelude.{◌≡◌, ◌*◌, ◌+◌, ◌<◌, ◌≤◌, length};
ghost use Rattle.model.specs.Rows.{row_at, row_of, rows_of, set_row};
ghost use Rattle.row.specs.Activity.{max_activity};
ghost use Rattle.row.specs.Answers.{removal_outcome, tightening_outcome};
ghost use Rattle.row.specs.KindChanges.{remove_row_of, tighten_row_of};
ghost use Rattle.row.specs.ValidRow.{ValidCoefs, ValidRow};
ghost use Rattle.matrix_view.specs.RowIn.{RowIn};

use matrix::coefficients;
use row::redundancy::RowRemoval;
use row::tightening::CoefficientTightening;
use row_activity::maximum_activity;
use row_removal::remove_redundant_row;
use row_tightening::tighten_coefficient;

// Lmax of row r.
pub fn maximum_activity_at(n: usize, coefs: &[i32], r: usize, bounds: &[i32]) -> i64
    requires n_in_bounds { r * n + n ≤ length coefs.now }
    requires valid_coefs { ValidCoefs n (row_of n coefs.now r) bounds.now }
    ensures { result ≡ max_activity n (row_of n coefs.now r) bounds.now }
{
    maximum_activity(coefficients(n, coefs, r), bounds)
}

// Tightens the coefficient of the free binary variable k in row r (01's sharpen).
pub fn tighten_coefficient_at(
    n: usize,
    coefs: &mut [i32],
    rhs: &mut [i32],
    kinds: &[u8],
    r: usize,
    bounds: &[i32],
    k: usize,
) -> CoefficientTightening
    requires fact { let A = rows_of coefs.old rhs.old kinds.now in
        RowIn n A r × ValidRow n (row_at n A r).coefs (row_at n A r).rhs bounds.now }
    requires k_lt_n { k < n }
    ensures answer { let A = rows_of coefs.old rhs.old kinds.now in
        tightening_outcome result ≡ (tighten_row_of n (row_at n A r) bounds.now k).outcome }
    ensures left { let A = rows_of coefs.old rhs.old kinds.now in
        let new = tighten_row_of n (row_at n A r) bounds.now k in
        rows_of coefs.new rhs.new kinds.now ≡ set_row n A r new.row }
{
    let start = r * n;
    let end = start + n;
    tighten_coefficient(&mut coefs[start..end], &mut rhs[r], kinds[r], bounds, k)
}

// Removes row r where the box implies it (01's drop).
pub fn remove_redundant_row_at(
    n: usize,
    coefs: &mut [i32],
    rhs: &mut [i32],
    kinds: &mut [u8],
    r: usize,
    bounds: &[i32],
) -> RowRemoval
    requires { let A = rows_of coefs.old rhs.old kinds.old in
        RowIn n A r × ValidRow n (row_at n A r).coefs (row_at n A r).rhs bounds.now }
    ensures answer { let A = rows_of coefs.old rhs.old kinds.old in
        removal_outcome result ≡ (remove_row_of n (row_at n A r) bounds.now).outcome }
    ensures left { let A = rows_of coefs.old rhs.old kinds.old in
        let new = remove_row_of n (row_at n A r) bounds.now in
        rows_of coefs.new rhs.new kinds.new ≡ set_row n A r new.row }
{
    let start = r * n;
    let end = start + n;
    remove_redundant_row(&mut coefs[start..end], &mut rhs[r], &mut kinds[r], bounds)
}
