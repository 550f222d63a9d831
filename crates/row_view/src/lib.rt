// One row, read in place (01, "Row sums"): a view of its n coefficients in the matrix, with its right side and kind. Each
// function over it is thin: it takes the view apart and leaves the work to a function over plain slices, where the
// proof is.
#![tactic(auto)]

ghost use Rattle.std.specs.Prelude.{◌≡◌, length};
ghost use Rattle.model.specs.Rows.{row_with};
ghost use Rattle.row.specs.Activity.{min_activity, max_activity};
ghost use Rattle.row.specs.Answers.{propagated_row_of};
ghost use Rattle.row.specs.Kinds.{propagate_row_of};
ghost use Rattle.row.specs.ValidRow.{ValidCoefs, ValidRow};
ghost use Rattle.sweep.specs.Steps.{Steps};

use row::propagation::RowPropagation;
use row_activity::{maximum_activity, minimum_activity};
use row_propagation::propagate_row;
use sweep::propagate_row_by;

#[derive(Drop)]
pub struct Row<'a> {
    pub coefs: &'a [i32],
    pub b: i32,
    // The byte that C lends: `row_with`, in each contract, is of every byte.
    pub kind: u8,
}

impl<'a> Row<'a> {
    // Lmin.
    pub fn minimum_activity<'b>(self, bounds: &'b [i32]) -> i64
        requires { ValidCoefs (length self.coefs.now) self.coefs.now bounds.now }
        ensures { result ≡ min_activity (length self.entry.coefs.now) self.entry.coefs.now bounds.now }
    {
        minimum_activity(self.coefs, bounds)
    }

    // Lmax.
    pub fn maximum_activity<'b>(self, bounds: &'b [i32]) -> i64
        requires { ValidCoefs (length self.coefs.now) self.coefs.now bounds.now }
        ensures { result ≡ max_activity (length self.entry.coefs.now) self.entry.coefs.now bounds.now }
    {
        maximum_activity(self.coefs, bounds)
    }

    // 01's visit of the row, with the box lent.
    pub fn propagate<'b>(self, bounds: &'b mut [i32]) -> RowPropagation
        requires { ValidRow (length self.coefs.now) self.coefs.now self.b bounds.old }
        ensures { let A = self.entry.coefs.now in
            propagated_row_of result bounds.new
            ≡ propagate_row_of (length A) (row_with A self.entry.b self.entry.kind) bounds.old }
    {
        propagate_row(self.coefs, self.b, self.kind, bounds)
    }

    // The same by the row's steps, which pass over its zeros.
    pub fn propagate_by<'b, 'c>(self, steps: &'b [u8], bounds: &'c mut [i32]) -> RowPropagation
        requires { ValidRow (length self.coefs.now) self.coefs.now self.b bounds.old
            × Steps (length self.coefs.now) self.coefs.now steps.now }
        ensures { let A = self.entry.coefs.now in
            (propagated_row_of result bounds.new)
            ≡ propagate_row_of (length A) (row_with A self.entry.b self.entry.kind) bounds.old }
    {
        propagate_row_by(self.coefs, steps, self.b, self.kind, bounds)
    }
}
