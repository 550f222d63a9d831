// A row that is propagated or tested by what is known of it (crate `row_marks`): one not visited yet is read whole, any
// other by its steps. `clean` finds the rows that are clean in a box.
#![tactic(auto)]

ghost use Rattle.std.specs.Prelude.{◌≡◌, ℕ, ◌*◌, ◌<◌, ◌≤◌, false, length, get_or};
ghost use Rattle.model.specs.Limits.{max_variables};
ghost use Rattle.model.specs.Rows.{row_at, rows_of};
ghost use Rattle.row.specs.Answers.{propagated_row_of};
ghost use Rattle.row.specs.Kinds.{propagate_row_of};
ghost use Rattle.row.specs.ValidRow.{ValidRow};
ghost use Rattle.matrix_view.specs.RowIn.{RowIn, StepsIn};
ghost use Rattle.row_index.specs.Index.{ColumnSigns, GoodStep};
ghost use Rattle.row_marks.specs.Marks.{Propagable, Remarks, Unread, Watched};

use matrix_row::{propagate_row_at, propagate_row_at_by};
use remarking::{remark, remark_all};
use row::propagation::RowPropagation;
use row_index::know_steps;
use row_marks::after;

pub mod clean;

// Propagates row r, read whole or by its steps, which are known then.
fn propagate_row_read<const WHOLE: bool>(
    n: usize,
    coefs: &[i32],
    rhs: &[i32],
    kinds: &[u8],
    r: usize,
    across: &[u8],
    bounds: &mut [i32],
) -> RowPropagation
    requires fact { let A = rows_of coefs.now rhs.now kinds.now in
        RowIn n A r × ValidRow n (row_at n A r).coefs (row_at n A r).rhs bounds.old }
    requires by_steps { WHOLE ≡ false → StepsIn n coefs.now across.now r }
    ensures { let A = rows_of coefs.now rhs.now kinds.now in
        propagated_row_of result bounds.new
        ≡ propagate_row_of n (row_at n A r) bounds.old }
{
    if WHOLE {
        return propagate_row_at(n, coefs, rhs, kinds, r, bounds);
    }
    propagate_row_at_by(n, coefs, rhs, kinds, r, across, bounds)
}

// The box `seen` becomes `bounds`, which row r left: any variable may have moved where it was read whole, else only
// those to which its steps lead. Rows that read a bound that moved are clean no more.
fn remark_row_read<const WHOLE: bool>(
    n: usize,
    m: usize,
    coefs: &[i32],
    kinds: &[u8],
    r: usize,
    across: &[u8],
    signs: &mut [u8],
    seen: &mut [i32],
    bounds: &[i32],
    marks: &mut [u8],
)
    requires whole { ColumnSigns n m coefs.now signs.old × (m ≤ length kinds.now) × (n ≤ max_variables)
        × (length seen.old ≡ 2 * n) × (length bounds.now ≡ 2 * n) × (m ≤ length marks.old) }
    requires by_steps { WHOLE ≡ false
        → Remarks n m coefs.now signs.old across.now (r * n) seen.old bounds.now marks.old }
    ensures left { seen.new ≡ bounds.now }
    ensures marks { (i : ℕ) → i < m → get_or marks.new i 0 ≡ 1 → (get_or marks.old i 0 ≡ 1)
        × ((j : ℕ) → j < n → Unread n coefs.now kinds.now i seen.old
        bounds.now j) }
    ensures signs { ColumnSigns n m coefs.now signs.new }
{
    if WHOLE {
        remark_all(n, m, coefs, kinds, signs, seen, bounds, marks);
        return;
    }
    remark(
        n,
        m,
        coefs,
        kinds,
        signs,
        across,
        r * n,
        seen,
        bounds,
        marks,
    );
}

// Propagates row r, read whole (its first visit) or by its steps, which are known then. It leaves the row clean, and
// those rows clean no more that read a bound that it moved.
fn propagate_and_mark<const WHOLE: bool>(
    n: usize,
    m: usize,
    bounds: &mut [i32],
    coefs: &[i32],
    rhs: &[i32],
    kinds: &[u8],
    r: usize,
    across: &[u8],
    signs: &mut [u8],
    seen: &mut [i32],
    marks: &mut [u8],
) -> RowPropagation
    requires fact { let A = rows_of coefs.now rhs.now kinds.now in
        Propagable n m bounds.old A across.now signs.old seen.old marks.old }
    requires r_lt_m { r < m }
    requires by_steps { WHOLE ≡ false → (j : ℕ) → j < n → GoodStep n coefs.now (r * n) across.now j }
    ensures propagated { let A = rows_of coefs.now rhs.now kinds.now in
        propagated_row_of result bounds.new
        ≡ propagate_row_of n (row_at n A r) bounds.old }
    ensures watched { let A = rows_of coefs.now rhs.now kinds.now in
        Watched n m A bounds.new across.now
        signs.new seen.new marks.new }
{
    match propagate_row_read::<WHOLE>(n, coefs, rhs, kinds, r, across, bounds) {
        RowPropagation::Infeasible => RowPropagation::Infeasible,
        RowPropagation::Tightened(moved) => {
            remark_row_read::<WHOLE>(n, m, coefs, kinds, r, across, signs, seen, bounds, marks);
            marks[r] = after(kinds[r]);
            RowPropagation::Tightened(moved)
        }
        RowPropagation::Unchanged => {
            marks[r] = 1;
            RowPropagation::Unchanged
        }
    }
}

// Propagates row r: a row not visited yet is read whole, any other by its steps.
pub fn propagate_row_marked(
    n: usize,
    m: usize,
    bounds: &mut [i32],
    coefs: &[i32],
    rhs: &[i32],
    kinds: &[u8],
    r: usize,
    across: &mut [u8],
    signs: &mut [u8],
    seen: &mut [i32],
    marks: &mut [u8],
) -> RowPropagation
    requires fact { let A = rows_of coefs.now rhs.now kinds.now in
        Propagable n m bounds.old A across.old signs.old seen.old marks.old }
    requires r_lt_m { r < m }
    ensures propagated { let A = rows_of coefs.now rhs.now kinds.now in
        propagated_row_of result bounds.new
        ≡ propagate_row_of n (row_at n A r) bounds.old }
    ensures watched { let A = rows_of coefs.now rhs.now kinds.now in
        Watched n m A bounds.new across.new
        signs.new seen.new marks.new }
{
    if marks[r] == 0 {
        return propagate_and_mark::<true>(
            n, m, bounds, coefs, rhs, kinds, r, across, signs, seen, marks,
        );
    }
    know_steps(n, m, coefs, r, across);
    propagate_and_mark::<false>(
        n, m, bounds, coefs, rhs, kinds, r, across, signs, seen, marks,
    )
}
