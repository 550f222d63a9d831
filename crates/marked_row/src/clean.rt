// Which rows are clean in a box that is not to be moved: each row that is not known to be is tested, without a copy of
// the box.
ghost use Rattle.std.specs.Prelude.{◌≡◌, ◌<◌};
ghost use Rattle.model.specs.Rows.{row_at, rows_of};
ghost use Rattle.row.specs.Kinds.{row_moves_of};
ghost use Rattle.row.specs.ValidRow.{ValidRow};
ghost use Rattle.matrix_view.specs.RowIn.{RowIn};
ghost use Rattle.row_index.specs.Index.{RowSteps};
ghost use Rattle.row_marks.specs.Marks.{Clean, Testable};

use matrix_row::{row_moves_at, row_moves_at_by};
use row_index::know_steps;

// Tests row r, whose mark is not 1: read whole where it was not visited yet, else by its steps.
fn test_row(
    n: usize,
    m: usize,
    bounds: &[i32],
    coefs: &[i32],
    rhs: &[i32],
    kinds: &[u8],
    r: usize,
    mark: u8,
    across: &mut [u8],
) -> bool
    requires fact { let A = rows_of coefs.now rhs.now kinds.now in
        RowIn n A r × ValidRow n (row_at n A r).coefs (row_at n A r).rhs bounds.now }
    requires row_steps { RowSteps n m coefs.now across.old × (r < m) }
    ensures answer { let A = rows_of coefs.now rhs.now kinds.now in
        result ≡ row_moves_of n (row_at n A r) bounds.now }
    ensures steps { RowSteps n m coefs.now across.new }
{
    if mark == 0 {
        return row_moves_at(n, coefs, rhs, kinds, r, bounds);
    }
    know_steps(n, m, coefs, r, across);
    row_moves_at_by(n, coefs, rhs, kinds, r, across, bounds)
}

// Marks row r clean or dirty.
fn find_clean_row(
    n: usize,
    m: usize,
    bounds: &[i32],
    coefs: &[i32],
    rhs: &[i32],
    kinds: &[u8],
    r: usize,
    across: &mut [u8],
    marks: &mut [u8],
)
    requires testable { Testable n m bounds.now (rows_of coefs.now rhs.now kinds.now) across.old marks.old }
    requires r_lt_m { r < m }
    ensures clean { let A = rows_of coefs.now rhs.now kinds.now in
        Clean n m A bounds.now marks.new }
    ensures steps { RowSteps n m coefs.now across.new }
{
    let mark = marks[r];
    if mark == 1 {
        return;
    }
    if test_row(n, m, bounds, coefs, rhs, kinds, r, mark, across) {
        marks[r] = 2;
        return;
    }
    marks[r] = 1;
}

// Marks each row clean or dirty.
pub fn find_clean(
    n: usize,
    m: usize,
    bounds: &[i32],
    coefs: &[i32],
    rhs: &[i32],
    kinds: &[u8],
    across: &mut [u8],
    marks: &mut [u8],
)
    requires { Testable n m bounds.now (rows_of coefs.now rhs.now kinds.now) across.old marks.old }
    ensures clean { let A = rows_of coefs.now rhs.now kinds.now in
        Clean n m A bounds.now marks.new }
    ensures steps { RowSteps n m coefs.now across.new }
{
    for r in 0..m {
        find_clean_row(n, m, bounds, coefs, rhs, kinds, r, across, marks);
    }
}
