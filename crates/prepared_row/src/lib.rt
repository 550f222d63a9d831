// A row of a prepared model, read from its workspace: it is propagated, the rows that hear of a bound that it moved are
// to be looked at, and it is put down as the row that moved it last (`reasons`).
#![tactic(auto)]

mod reasons;

ghost use Rattle.std.specs.Prelude.{◌≡◌, ℕ, ◌%◌, ◌<◌, ◌≤◌, length};
ghost use Rattle.model.specs.Box.{NonEmpty};
ghost use Rattle.model.specs.Rows.{Rows, row_at};
ghost use Rattle.packed_row.specs.Words.{row_of_words};
ghost use Rattle.prepared_model.specs.Layout.{decode, fall_of, rise_of};
ghost use Rattle.prepared_model.specs.RowReasons.{Lent, row_reasons};
ghost use Rattle.row.specs.Answers.{propagated_row_of};
ghost use Rattle.row.specs.Kinds.{propagate_row_of, row_moves_of};
ghost use Rattle.row_set.specs.Bits.{bit_at};
ghost use Rattle.row_set.specs.Readers.{Calm, Hearers};
ghost use Rattle.prepared_row.specs.Looking.{Looking, LookingAt, Sized};

use crate::reasons::blame;
use packed_row::{propagate_row_packed, row_moves_packed};
use prepared_notes::note;
use row::propagation::RowPropagation;
use row_set::remove;
use workspace::{RHS_AT, ROWS_AT};

// A ≤ row that was propagated moves nothing when it is propagated again; an = row may.
fn done(rhs_word: u32, r: usize, dirty: &mut [u32])
    requires { (r < 128) × (length dirty.old ≡ 4) }
    ensures others { (i : ℕ) → (i ≡ r → ⊥) → bit_at dirty.new i ≡ bit_at dirty.old i }
    ensures equality { rhs_word % 2 ≡ 1 → dirty.new ≡ dirty.old }
{
    if rhs_word % 2 != 1 {
        remove(r, dirty);
    }
}

// Row r, whose words and word of the right side are given.
fn propagate_row_noted(
    words: &[u32],
    rhs_word: u32,
    ws: &[u32],
    r: usize,
    bounds: &mut [i32],
    seen: &mut [i32],
    dirty: &mut [u32],
    reasons: &mut [u32],
) -> RowPropagation
    requires { LookingAt words.now ws.now r bounds.old seen.old dirty.old
        × Lent (length words.now) reasons.old }
    ensures propagated { let W = words.now in
        propagated_row_of result bounds.new
        ≡ propagate_row_of (length W) (row_of_words W rhs_word) bounds.old }
    ensures known { NonEmpty (length words.now) bounds.new → seen.new ≡ bounds.new }
    ensures calm { let n = length words.now in
        ((m : ℕ) (A : Rows) → m ≤ 128 → row_at n A r ≡ row_of_words words.now rhs_word
        → Hearers n m A (rise_of ws.now) (fall_of ws.now)
        → Calm n m A bounds.old dirty.old
        → Calm n m A bounds.new dirty.new) }
    ensures reasons { let W = words.now in
        let B = bounds.old in
        reasons.new
        ≡ row_reasons r B (propagate_row_of (length W) (row_of_words W rhs_word) B) reasons.old }
{
    match propagate_row_packed(words, rhs_word, bounds) {
        RowPropagation::Infeasible => RowPropagation::Infeasible,
        RowPropagation::Tightened(moved) => {
            blame(words, r as u32, seen, bounds, reasons);
            note(words, ws, seen, bounds, dirty);
            done(rhs_word, r, dirty);
            RowPropagation::Tightened(moved)
        }
        RowPropagation::Unchanged => {
            remove(r, dirty);
            RowPropagation::Unchanged
        }
    }
}

// Row r of the workspace.
pub fn propagate_row_prepared(
    n: usize,
    m: usize,
    ws: &[u32],
    r: usize,
    bounds: &mut [i32],
    seen: &mut [i32],
    dirty: &mut [u32],
    reasons: &mut [u32],
) -> RowPropagation
    requires { Looking n m ws.now bounds.old seen.old dirty.old × (r < m) × Lent n reasons.old }
    ensures propagated { propagated_row_of result bounds.new
        ≡ propagate_row_of n (row_at n (decode n m ws.now) r) bounds.old }
    ensures known { NonEmpty n bounds.new → seen.new ≡ bounds.new }
    ensures calm { let W = ws.now in
        (Hearers n m (decode n m W) (rise_of W) (fall_of W)
        → Calm n m (decode n m W) bounds.old dirty.old
        → Calm n m (decode n m W) bounds.new dirty.new) }
    ensures reasons { let B = bounds.old in
        reasons.new
        ≡ row_reasons r B (propagate_row_of n (row_at n (decode n m ws.now) r) B) reasons.old }
{
    let start = ROWS_AT + r * n;
    propagate_row_noted(
        &ws[start..start + n],
        ws[RHS_AT + r],
        ws,
        r,
        bounds,
        seen,
        dirty,
        reasons,
    )
}

// Whether propagating row r of the workspace would change the box; nothing is written.
pub fn row_moves_prepared(n: usize, m: usize, ws: &[u32], r: usize, bounds: &[i32]) -> bool
    requires { Sized n m ws.now bounds.now × (r < m) }
    ensures { result ≡ row_moves_of n (row_at n (decode n m ws.now) r) bounds.now }
{
    let start = ROWS_AT + r * n;
    row_moves_packed(&ws[start..start + n], ws[RHS_AT + r], bounds)
}
