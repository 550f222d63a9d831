// Row r of a matrix, for callers with plain slices: propagated, or tested whether that would move anything, where it
// stands.
#![tactic(auto)]

ghost use Rattle.std.specs.Prelude.{◌≡◌};
ghost use Rattle.model.specs.Rows.{row_at, rows_of};
ghost use Rattle.row.specs.Answers.{propagated_row_of};
ghost use Rattle.row.specs.Kinds.{propagate_row_of, row_moves_of};
ghost use Rattle.row.specs.ValidRow.{ValidRow};
ghost use Rattle.matrix_view.specs.RowIn.{RowIn, StepsIn};
ghost use Rattle.sweep.specs.Steps.{Steps};

use matrix::{coefficients, row_bytes};
use matrix_view::row_at;
use row::propagation::RowPropagation;
use row_propagation::moves;
use sweep::moves_by;

// Propagates row r of the matrix through its view.
pub fn propagate_row_at<'a, 'b, 'c, 'd>(
    n: usize,
    coefs: &'a [i32],
    rhs: &'b [i32],
    kinds: &'c [u8],
    r: usize,
    bounds: &'d mut [i32],
) -> RowPropagation
    requires { let A = rows_of coefs.now rhs.now kinds.now in
        RowIn n A r × ValidRow n (row_at n A r).coefs (row_at n A r).rhs bounds.old }
    ensures { let A = rows_of coefs.now rhs.now kinds.now in
        propagated_row_of result bounds.new ≡ propagate_row_of n (row_at n A r) bounds.old }
{
    row_at(n, coefs, rhs, kinds, r).propagate(bounds)
}

// The same by steps that are a slice of their own.
fn propagate_row_with<'a, 'b, 'c, 'd, 'e>(
    n: usize,
    coefs: &'a [i32],
    rhs: &'b [i32],
    kinds: &'c [u8],
    r: usize,
    steps: &'d [u8],
    bounds: &'e mut [i32],
) -> RowPropagation
    requires { let A = rows_of coefs.now rhs.now kinds.now in
        RowIn n A r × ValidRow n (row_at n A r).coefs (row_at n A r).rhs bounds.old
        × Steps n (row_at n A r).coefs steps.now }
    ensures { let A = rows_of coefs.now rhs.now kinds.now in
        (propagated_row_of result bounds.new) ≡ propagate_row_of n (row_at n A r) bounds.old }
{
    row_at(n, coefs, rhs, kinds, r).propagate_by(steps, bounds)
}

// The same by the row's steps, which pass over its zeros.
pub fn propagate_row_at_by(
    n: usize,
    coefs: &[i32],
    rhs: &[i32],
    kinds: &[u8],
    r: usize,
    across: &[u8],
    bounds: &mut [i32],
) -> RowPropagation
    requires fact { let A = rows_of coefs.now rhs.now kinds.now in
        RowIn n A r × ValidRow n (row_at n A r).coefs (row_at n A r).rhs bounds.old }
    requires steps_in { StepsIn n coefs.now across.now r }
    ensures { let A = rows_of coefs.now rhs.now kinds.now in
        propagated_row_of result bounds.new
        ≡ propagate_row_of n (row_at n A r) bounds.old }
{
    propagate_row_with(n, coefs, rhs, kinds, r, row_bytes(n, across, r), bounds)
}

// Whether propagating row r would answer other than Unchanged; nothing is written.
pub fn row_moves_at(
    n: usize,
    coefs: &[i32],
    rhs: &[i32],
    kinds: &[u8],
    r: usize,
    bounds: &[i32],
) -> bool
    requires { let A = rows_of coefs.now rhs.now kinds.now in
        RowIn n A r × ValidRow n (row_at n A r).coefs (row_at n A r).rhs bounds.now }
    ensures { let A = rows_of coefs.now rhs.now kinds.now in
        result ≡ row_moves_of n (row_at n A r) bounds.now }
{
    moves(coefficients(n, coefs, r), rhs[r], kinds[r], bounds)
}

// The same by the row's steps.
pub fn row_moves_at_by(
    n: usize,
    coefs: &[i32],
    rhs: &[i32],
    kinds: &[u8],
    r: usize,
    across: &[u8],
    bounds: &[i32],
) -> bool
    requires fact { let A = rows_of coefs.now rhs.now kinds.now in
        RowIn n A r × ValidRow n (row_at n A r).coefs (row_at n A r).rhs bounds.now }
    requires steps_in { StepsIn n coefs.now across.now r }
    ensures { let A = rows_of coefs.now rhs.now kinds.now in
        result ≡ row_moves_of n (row_at n A r) bounds.now }
{
    moves_by(
        coefficients(n, coefs, r),
        row_bytes(n, across, r),
        rhs[r],
        kinds[r],
        bounds,
    )
}
