// Which rows are to be looked at once a box has become another: those that hear of a bound that moved. The box that the
// rows know, `old`, becomes the new one as the moves are noted.
#![tactic(auto)]

ghost use Rattle.std.specs.Prelude.{false, ◌≡◌, ℕ, ◌*◌, ◌+◌, ◌<◌, length};
ghost use Rattle.model.specs.Box.{lower, upper, with_bounds};
ghost use Rattle.prepared_model.specs.Layout.{fall_of, rise_of, workspace_len};
ghost use Rattle.row_set.specs.Bits.{bit_at};
ghost use Rattle.model.specs.Limits.{max_variables};
ghost use Rattle.prepared_notes.specs.Heard.{Deaf, Missed, Noting};

use row_set::add;
use workspace::HEARERS_AT;

// A bound of variable j went from `old` to `new`.
pub fn note_bound(ws: &[u32], j: usize, old: i32, new: i32, dirty: &mut [u32])
    requires { (length ws.now ≡ workspace_len) × (j < max_variables) × (length dirty.old ≡ 4) }
    ensures { let W = ws.now in
        ((r : ℕ) → r < 128 → bit_at dirty.new r ≡ 0
        → (bit_at dirty.old r ≡ 0) × Deaf (rise_of W j) (fall_of W j) r old new) }
{
    let at = HEARERS_AT + 8 * j;
    if old < new {
        add(&ws[at..at + 4], dirty);
        return;
    }
    if new < old {
        add(&ws[at + 4..at + 8], dirty);
    }
}

// The bounds of variable j become those of `new`.
fn note_at(ws: &[u32], j: usize, old: &mut [i32], new: &[i32], dirty: &mut [u32])
    requires { (length ws.now ≡ workspace_len) × (j < max_variables) × (length dirty.old ≡ 4)
        × (2 * j + 1 < length old.old) × (2 * j + 1 < length new.now) }
    ensures left { old.new
        ≡ with_bounds old.old j (lower new.now j) (upper new.now j) }
    ensures dirty { (r : ℕ) → r < 128 → bit_at dirty.new r ≡ 0
        → (bit_at dirty.old r ≡ 0)
        × Missed ws.now r old.old new.now j }
{
    let low = new[2 * j];
    let high = new[2 * j + 1];
    let old_low = old[2 * j];
    let old_high = old[2 * j + 1];
    note_bound(ws, j, old_low, low, dirty);
    note_bound(ws, j, old_high, high, dirty);
    old[2 * j] = low;
    old[2 * j + 1] = high;
}

// Whether a bound of variable j differs. Most do not, so this is asked in the loop and costs no call.
fn differs_at(old: &[i32], new: &[i32], j: usize) -> bool
    requires { (2 * j + 1 < length old.now) × (2 * j + 1 < length new.now) }
    ensures { result ≡ false → (lower new.now j ≡ lower old.now j)
        × (upper new.now j ≡ upper old.now j) }
{
    old[2 * j] != new[2 * j] || old[2 * j + 1] != new[2 * j + 1]
}

// The box `old` becomes the box `new`, which differs from it only where the row that the words say has a coefficient.
pub fn note(words: &[u32], ws: &[u32], old: &mut [i32], new: &[i32], dirty: &mut [u32])
    requires { Noting words.now ws.now old.old new.now dirty.old }
    ensures left { old.new ≡ new.now }
    ensures dirty { (r : ℕ) → r < 128 → bit_at dirty.new r ≡ 0
        → (bit_at dirty.old r ≡ 0)
        × ((j : ℕ) → j < length words.now
        → Missed ws.now r old.old new.now j) }
{
    let mut j: usize = 0;
    // From word to word that is read: the step is not 1.
    while j < words.len() {
        if differs_at(old, new, j) {
            note_at(ws, j, old, new, dirty);
        }
        j += 1 + (words[j] % 128) as usize;
    }
}
