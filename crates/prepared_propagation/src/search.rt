// How a propagation of a prepared model ends whose budget's passes are made (02, C-15): a look at the rows that may
// move a bound, which is no pass and moves nothing.
ghost use Rattle.std.specs.Prelude.{◌≡◌, length};
ghost use Rattle.model.specs.Box.{NonEmpty};
ghost use Rattle.prepared_model.specs.Layout.{decode};
ghost use Rattle.prepared_row.specs.Looking.{Sized};
ghost use Rattle.propagation.specs.Results.{propagation_of};
ghost use Rattle.row_set.specs.Readers.{Calm};
ghost use Rattle.semantics.specs.FixpointTest.{first_moving};
ghost use Rattle.semantics.specs.Propagate.{propagate_from};

use prepared_row::row_moves_prepared;
use propagation::Propagation;
use row_set::next_row;

// The lowest row whose propagation changes the box, m if there is none.
fn first_moving(n: usize, m: usize, ws: &[u32], bounds: &[i32], dirty: &[u32]) -> usize
    requires { Sized n m ws.now bounds.now × NonEmpty n bounds.now × (length dirty.now ≡ 4) }
    ensures { let A = decode n m ws.now in
        (Calm n m A bounds.now dirty.now → result ≡ first_moving n m A bounds.now) }
{
    let mut r = next_row(m, dirty, 0);
    // From one row of the set to the next: the step is not 1.
    while r < m {
        if row_moves_prepared(n, m, ws, r, bounds) {
            return r;
        }
        r = next_row(m, dirty, r + 1);
    }
    m
}

// The answer, after the given passes.
pub fn last_look(
    n: usize,
    m: usize,
    ws: &[u32],
    bounds: &[i32],
    dirty: &[u32],
    passes: u32,
    moved: u32,
) -> Propagation
    requires { Sized n m ws.now bounds.now × NonEmpty n bounds.now × (length dirty.now ≡ 4) }
    ensures { let A = decode n m ws.now in
        (Calm n m A bounds.now dirty.now
        → propagation_of result bounds.now ≡ propagate_from 0 passes moved n m A bounds.now) }
{
    if first_moving(n, m, ws, bounds, dirty) < m {
        return Propagation::BudgetSpent(passes, moved);
    }
    Propagation::Converged(passes, moved)
}
