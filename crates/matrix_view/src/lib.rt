// Row r of a matrix, as a view (`row_view`): its coefficients where they stand, with its right side and its kind.
#![tactic(auto)]

ghost use Rattle.std.specs.Prelude.{◌≡◌};
ghost use Rattle.model.specs.Rows.{row_at, row_with, rows_of};
ghost use Rattle.matrix_view.specs.RowIn.{RowIn};

use matrix::coefficients;
use row_view::Row;

// Row r of the matrix, with its right side and its kind.
pub fn row_at<'a, 'b, 'c>(
    n: usize,
    coefs: &'a [i32],
    rhs: &'b [i32],
    kinds: &'c [u8],
    r: usize,
) -> Row<'a>
    requires { RowIn n (rows_of coefs.now rhs.now kinds.now) r }
    ensures { let A = rows_of coefs.now rhs.now kinds.now in
        row_with result.coefs.now result.b result.kind ≡ row_at n A r }
{
    Row {
        coefs: coefficients(n, coefs, r),
        b: rhs[r],
        kind: kinds[r],
    }
}
