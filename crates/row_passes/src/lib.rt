// Propagate all rows (01's settle) of a model that passed the checks: passes over the rows until nothing moves, the
// budget's passes are made or a row is infeasible. Each row is read in place through its view. What is known of the
// rows from earlier visits is kept beside the box while a call runs: their index and which of them are clean (crate
// `row_marks`).
#![tactic(auto)]

ghost use Rattle.std.specs.Prelude.{◌≡◌, ◌+◌, ◌<◌, ◌≤◌, length};
ghost use Rattle.model.specs.Valid.{ValidModel};
ghost use Rattle.model.specs.Rows.{rows_of};
ghost use Rattle.model.specs.Model.{model_of};
ghost use Rattle.semantics.specs.Propagate.{propagate as propagated};
ghost use Rattle.row_marks.specs.Marks.{Watched};
ghost use Rattle.propagation.specs.Results.{propagation_of};

use boxes::copy_box;
use marked_row::propagate_row_marked;
use model::{MAX_BOX, MAX_MATRIX, MAX_ROWS};
use propagation::search::last_look;
use propagation::{Propagation, Tally};
use row::propagation::RowPropagation;
use row_marks::next_row;

// Propagates the rows by what is known of them: their index, and which of them are clean. The passes are left by their
// label at the first row that is infeasible, which leaves the empty box; that pass counts as made. Where the budget's
// passes are made, a last look decides whether it is spent. The nested `while`s with labels, and the tally by value, are
// the forms that docs/DECISIONS.md ("Language forms by place") names.
pub fn propagate_marked(
    n: usize,
    m: usize,
    bounds: &mut [i32],
    coefs: &[i32],
    rhs: &[i32],
    kinds: &[u8],
    budget: u32,
    across: &mut [u8],
    signs: &mut [u8],
    seen: &mut [i32],
    marks: &mut [u8],
) -> Propagation
    requires valid_model { ValidModel (model_of n m bounds.old (rows_of coefs.now rhs.now kinds.now)) }
    requires fact { let A = rows_of coefs.now rhs.now kinds.now in
        Watched n m A bounds.old across.old signs.old seen.old marks.old }
    requires m_in_bounds { m ≤ length marks.old }
    ensures answer { let A = rows_of coefs.now rhs.now kinds.now in
        propagation_of result bounds.new
        ≡ propagated budget n m A bounds.old }
    ensures watched { let A = rows_of coefs.now rhs.now kinds.now in
        Watched n m A bounds.new across.new
        signs.new seen.new marks.new }
{
    if boxes::is_empty(bounds) {
        return Propagation::Infeasible(1, 0);
    }
    let mut passes: u32 = 0;
    let mut tally = Tally { moved: 0 };
    'passes: while passes < budget {
        passes += 1;
        let before = tally.moved;
        let mut r = next_row(m, marks, 0);
        'rows: while r < m {
            match propagate_row_marked(
                n, m, bounds, coefs, rhs, kinds, r, across, signs, seen, marks,
            ) {
                RowPropagation::Infeasible => break 'passes,
                RowPropagation::Tightened(moved) => tally = tally.add(moved),
                RowPropagation::Unchanged => {}
            }
            r = next_row(m, marks, r + 1);
        }
        if tally.moved == before {
            return Propagation::Converged(passes, before);
        }
    }
    if boxes::is_empty(bounds) {
        return Propagation::Infeasible(passes, tally.moved);
    }
    last_look(n, m, bounds, coefs, rhs, kinds, marks, passes, tally.moved)
}

// Propagates the rows, of which nothing is known yet.
pub fn propagate(
    n: usize,
    m: usize,
    bounds: &mut [i32],
    coefs: &[i32],
    rhs: &[i32],
    kinds: &[u8],
    budget: u32,
) -> Propagation
    requires { ValidModel (model_of n m bounds.old (rows_of coefs.now rhs.now kinds.now)) }
    ensures { let A = rows_of coefs.now rhs.now kinds.now in
        propagation_of result bounds.new
        ≡ propagated budget n m A bounds.old }
{
    let len = bounds.len();
    let mut across = [0u8; MAX_MATRIX];
    let mut signs = [0u8; MAX_MATRIX];
    let mut seen = [0i32; MAX_BOX];
    copy_box(bounds, &mut seen[..len]);
    let mut marks = [0u8; MAX_ROWS];
    propagate_marked(
        n,
        m,
        bounds,
        coefs,
        rhs,
        kinds,
        budget,
        &mut across,
        &mut signs,
        &mut seen[..len],
        &mut marks,
    )
}
