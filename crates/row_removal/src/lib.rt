// Remove a redundant row (01's drop): a row of a model that passed the checks, its box empty or not. Its kind is the byte
// that C lends, 1 for an = row; it is written there, and the contract answers for every byte.
#![tactic(auto)]

ghost use Rattle.std.specs.Prelude.{◌&&◌, cond, false, not, ◌≡◌, length, pos};
ghost use Rattle.integer.specs.Order.{eq_z};
ghost use Rattle.model.specs.Box.{is_empty, same_list};
ghost use Rattle.model.specs.Rows.{row_with};
ghost use Rattle.row.specs.Answers.{removal_outcome};
ghost use Rattle.row.specs.KindChanges.{remove_row_of};
ghost use Rattle.row.specs.Outcome.{changed, unchanged};
ghost use Rattle.row.specs.Redundancy.{zero_row};
ghost use Rattle.row.specs.ValidRow.{ValidRow};

use row::redundancy::RowRemoval;
use row_activity::{maximum_activity, minimum_activity};

// Sets every number to 0, and says whether one was not.
fn clear(xs: &mut [i32]) -> bool
    ensures left { xs.new ≡ zero_row (length xs.old) }
    ensures changed { result ≡ not (same_list xs.old (zero_row (length xs.old))) }
{
    let mut changed = false;
    for x in xs.iter_mut() {
        if *x != 0 {
            *x = 0;
            changed = true;
        }
    }
    changed
}

// Makes the row 0 ≤ 0, and says whether a number changed; `b` is its right side.
fn clear_row(coefs: &mut [i32], b: &mut i32) -> RowRemoval
    ensures answer { let A = coefs.old in
        removal_outcome result
        ≡ cond (eq_z b.old (pos 0) && same_list A (zero_row (length A))) unchanged changed }
    ensures row { coefs.new ≡ zero_row (length coefs.old) }
    ensures rhs_zero { b.new ≡ pos 0 }
{
    let old = *b;
    *b = 0;
    if clear(coefs) {
        return RowRemoval::Removed;
    }
    if old != 0 {
        return RowRemoval::Removed;
    }
    RowRemoval::Unchanged
}

// Removes an = row where every point of the box meets it (least and most are both b): it becomes 0 ≤ 0, of kind 0.
fn remove_equality_row(coefs: &mut [i32], b: &mut i32, kind: &mut u8, bounds: &[i32]) -> RowRemoval
    requires valid_row { ValidRow (length coefs.old) coefs.old b.old bounds.now }
    requires bounds_value { (is_empty (length coefs.old) bounds.now ≡ false) × (kind.old ≡ 1) }
    ensures answer { let A = coefs.old in
        let q = row_with A b.old kind.old in
        removal_outcome result ≡ (remove_row_of (length A) q bounds.now).outcome }
    ensures row { let A = coefs.old in
        let q = row_with A b.old kind.old in
        let q' = row_with coefs.new b.new kind.new in
        q' ≡ (remove_row_of (length A) q bounds.now).row }
{
    let rhs = *b as i64;
    if minimum_activity(coefs, bounds) != rhs {
        return RowRemoval::Unchanged;
    }
    if maximum_activity(coefs, bounds) != rhs {
        return RowRemoval::Unchanged;
    }
    clear_row(coefs, b);
    *kind = 0;
    RowRemoval::Removed
}

// Removes the row where no point of the box can break it: a ≤ row where most ≤ b, which becomes 0 ≤ 0.
pub fn remove_redundant_row(
    coefs: &mut [i32],
    b: &mut i32,
    kind: &mut u8,
    bounds: &[i32],
) -> RowRemoval
    requires { ValidRow (length coefs.old) coefs.old b.old bounds.now }
    ensures answer { let A = coefs.old in
        let q = row_with A b.old kind.old in
        removal_outcome result ≡ (remove_row_of (length A) q bounds.now).outcome }
    ensures row { let A = coefs.old in
        let q = row_with A b.old kind.old in
        let q' = row_with coefs.new b.new kind.new in
        q' ≡ (remove_row_of (length A) q bounds.now).row }
{
    if boxes::is_empty(bounds) {
        return RowRemoval::Infeasible;
    }
    if *kind == 1 {
        return remove_equality_row(coefs, b, kind, bounds);
    }
    let most = maximum_activity(coefs, bounds);
    if (*b as i64) < most {
        return RowRemoval::Unchanged;
    }
    clear_row(coefs, b)
}
