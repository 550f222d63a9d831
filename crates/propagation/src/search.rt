// The search for a row whose propagation would change a box that is not to be moved (02, C-13 and C-15): what a row
// would do is found without doing it, so nothing is written and no box is copied.
ghost use Rattle.std.specs.Prelude.{◌≡◌, ◌≤◌, length};
ghost use Rattle.model.specs.Box.{NonEmpty};
ghost use Rattle.model.specs.Valid.{ValidModel};
ghost use Rattle.model.specs.Rows.{rows_of};
ghost use Rattle.model.specs.Model.{model_of};
ghost use Rattle.row_marks.specs.Marks.{Clean};
ghost use Rattle.semantics.specs.FixpointTest.{first_moving};
ghost use Rattle.semantics.specs.Propagate.{propagate_from};
ghost use Rattle.propagation.specs.Results.{propagation_of};

use crate::Propagation;
use matrix_row::row_moves_at;

// The lowest row whose propagation changes the box, m if there is none. Rows that are marked clean are passed over.
pub fn first_moving(
    n: usize,
    m: usize,
    bounds: &[i32],
    coefs: &[i32],
    rhs: &[i32],
    kinds: &[u8],
    marks: &[u8],
) -> usize
    requires valid_model { ValidModel (model_of n m bounds.now (rows_of coefs.now rhs.now kinds.now)) }
    requires fact { let A = rows_of coefs.now rhs.now kinds.now in
        NonEmpty n bounds.now × Clean n m A bounds.now marks.now × (m ≤ length marks.now) }
    ensures { let A = rows_of coefs.now rhs.now kinds.now in
        result ≡ first_moving n m A bounds.now }
{
    for r in 0..m {
        let is_clean = marks[r] == 1;
        if is_clean {
            continue;
        }
        if row_moves_at(n, coefs, rhs, kinds, r, bounds) {
            return r;
        }
    }
    m
}

// How a propagation ends whose budget's passes are made (02, C-15): a look at the rows that are not clean, which is no
// pass and moves nothing, tells whether one of them would still change the box.
pub fn last_look(
    n: usize,
    m: usize,
    bounds: &[i32],
    coefs: &[i32],
    rhs: &[i32],
    kinds: &[u8],
    marks: &[u8],
    passes: u32,
    moved: u32,
) -> Propagation
    requires valid_model { ValidModel (model_of n m bounds.now (rows_of coefs.now rhs.now kinds.now)) }
    requires fact { let A = rows_of coefs.now rhs.now kinds.now in
        NonEmpty n bounds.now × Clean n m A bounds.now marks.now × (m ≤ length marks.now) }
    ensures { let A = rows_of coefs.now rhs.now kinds.now in
        propagation_of result bounds.now
        ≡ propagate_from 0 passes moved n m A bounds.now }
{
    if first_moving(n, m, bounds, coefs, rhs, kinds, marks) < m {
        return Propagation::BudgetSpent(passes, moved);
    }
    Propagation::Converged(passes, moved)
}
