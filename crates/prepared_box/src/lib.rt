// The box that the workspace knows becomes the lent one, and the rows that hear of a bound that differs are to be
// looked at too. Most bounds are the same: blocks of variables are copied and compared with what the workspace keeps,
// each in a loop without a branch, and only where one differs its variables are looked at one by one.
#![tactic(auto)]

ghost use Rattle.std.specs.Prelude.{true, ◌≡◌, ℕ, ◌*◌, ◌+◌, ◌<◌, ◌≤◌, get_or, length};
ghost use Rattle.model.specs.Box.{at};
ghost use Rattle.model.specs.Limits.{max_box, max_variables};
ghost use Rattle.model.specs.Rows.{Rows};
ghost use Rattle.prepared_model.specs.Layout.{bound_of, dirty_of, rows_in, variables_of, workspace_len};
ghost use Rattle.prepared_model.specs.Prepared.{Prepared};
ghost use Rattle.row_set.specs.Readers.{Calm};
ghost use Rattle.prepared_box.specs.TakenBox.{Copied, NotedKept};

use prepared_notes::note_bound;
use workspace::{BOX_AT, SET_AT, kept_bound};

// The variables of a block.
const BLOCK: usize = 32;

// Copies the numbers from place `from` on and below `to`. Whether they are those that the workspace keeps.
fn copy_same(ws: &[u32], from: usize, to: usize, seen: &mut [i32], new: &[i32]) -> bool
    requires { (length ws.now ≡ workspace_len) × (from ≤ to) × (to ≤ max_box) × (to ≤ length seen.old)
        × (to ≤ length new.now) }
    ensures copied { Copied from to new.now seen.old seen.new }
    ensures same { result ≡ true → (i : ℕ) → from ≤ i → i < to
        → bound_of (get_or ws.now (8 + i) 0) ≡ at new.now i }
{
    let mut same = true;
    for i in from..to {
        let bound = new[i];
        seen[i] = bound;
        same &= kept_bound(ws, i) == bound;
    }
    same
}

// The rows that hear of a bound of variable j that is not the one that the workspace keeps are to be looked at.
fn note_kept(ws: &[u32], j: usize, new: &[i32], dirty: &mut [u32])
    requires { (length ws.now ≡ workspace_len) × (j < max_variables) × (2 * j + 1 < length new.now)
        × (length dirty.old ≡ 4) }
    ensures { NotedKept ws.now new.now dirty.old j (j + 1) dirty.new }
{
    note_bound(ws, j, kept_bound(ws, 2 * j), new[2 * j], dirty);
    note_bound(ws, j, kept_bound(ws, 2 * j + 1), new[2 * j + 1], dirty);
}

// The same of the variables from `from` on and below `to`.
fn note_block(ws: &[u32], from: usize, to: usize, new: &[i32], dirty: &mut [u32])
    requires { (length ws.now ≡ workspace_len) × (from ≤ to) × (to ≤ max_variables) × (length dirty.old ≡ 4)
        × (2 * to ≤ length new.now) }
    ensures { NotedKept ws.now new.now dirty.old from to dirty.new }
{
    for j in from..to {
        note_kept(ws, j, new, dirty);
    }
}

// All n variables get their new bounds, block by block from the last on; what is left of n is the first block. Only
// that one's length is not known to the compiler, which unrolls the loop of the others.
fn take_all(n: usize, ws: &[u32], seen: &mut [i32], new: &[i32], dirty: &mut [u32])
    requires { (length ws.now ≡ workspace_len) × (n ≤ max_variables) × (length dirty.old ≡ 4)
        × (length seen.old ≡ 2 * n) × (length new.now ≡ 2 * n) }
    ensures copied { Copied 0 (2 * n) new.now seen.old seen.new }
    ensures noted { NotedKept ws.now new.now dirty.old 0 n dirty.new }
{
    let mut end = n;
    // From block to block: the step is not 1.
    while BLOCK <= end {
        let from = end - BLOCK;
        if !copy_same(ws, 2 * from, 2 * from + 2 * BLOCK, seen, new) {
            note_block(ws, from, end, new, dirty);
        }
        end = from;
    }
    if !copy_same(ws, 0, 2 * end, seen, new) {
        note_block(ws, 0, end, new, dirty);
    }
}

// The rows to look at in the box that the workspace knows.
fn read_set(ws: &[u32], dirty: &mut [u32])
    requires { (length ws.now ≡ workspace_len) × (length dirty.old ≡ 4) }
    ensures { dirty.new ≡ dirty_of ws.now }
{
    dirty.copy_from_slice(&ws[SET_AT..BOX_AT]);
}

// What is known of the lent box of n variables: `seen` becomes it, and `dirty` the rows to look at in it.
pub fn take_box(n: usize, ws: &[u32], bounds: &[i32], seen: &mut [i32], dirty: &mut [u32])
    requires { (length ws.now ≡ workspace_len) × (n ≤ max_variables) × (length bounds.now ≡ 2 * n)
        × (length seen.old ≡ 2 * n) × (length dirty.old ≡ 4) }
    ensures known { seen.new ≡ bounds.now }
    ensures calm { let W = ws.now in
        ((A : Rows) → Prepared W A → n ≡ variables_of W
        → Calm n (rows_in W) A bounds.now dirty.new) }
{
    read_set(ws, dirty);
    take_all(n, ws, seen, bounds, dirty);
}
