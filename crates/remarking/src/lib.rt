// The marks of a box that moved: as the old box becomes the new one, the rows that read a bound that moved are clean no
// more (crate `row_marks`).
#![tactic(auto)]

ghost use Rattle.std.specs.Prelude.{true, ◌≡◌, ℕ, ◌*◌, ◌+◌, ◌<◌, ◌≤◌, length, get_or, set};
ghost use Rattle.model.specs.Box.{at, lower, upper, with_bounds};
ghost use Rattle.row_index.specs.Index.{ColumnSigns, sign_of};
ghost use Rattle.row_marks.specs.Marks.{Remarks, Unread, reads};
ghost use Rattle.model.specs.Limits.{max_variables};

use model::MAX_VARIABLES;
use row_index::know_signs;
use row_marks::{has_moved, unmark};

// Number q of the box, a bound of variable j: where it moved, the rows that read it, those of the given sign, are clean
// no more.
fn remark_bound(
    n: usize,
    m: usize,
    coefs: &[i32],
    kinds: &[u8],
    j: usize,
    sign: u8,
    q: usize,
    signs: &mut [u8],
    old: &mut [i32],
    new: &[i32],
    marks: &mut [u8],
)
    requires { ColumnSigns n m coefs.now signs.old × (m ≤ length kinds.now) × (j < n)
        × (m ≤ length marks.old) × (q < length old.old) × (q < length new.now) }
    ensures left { old.new ≡ set old.old q (at new.now q) }
    ensures marks { (r : ℕ) → r < m → get_or marks.new r 0 ≡ 1 → (get_or marks.old r 0 ≡ 1)
        × (reads (get_or kinds.now r 0) (sign_of (at coefs.now (r * n + j))) sign ≡ true
        → at new.now q ≡ at old.old q) }
    ensures signs { ColumnSigns n m coefs.now signs.new }
{
    let z = new[q];
    if old[q] == z {
        return;
    }
    know_signs(n, m, coefs, j, signs);
    unmark(m, kinds, signs, j * m, sign, marks);
    old[q] = z;
}

// The bounds of variable j become those of `new`; rows that read one that moved are clean no more.
pub fn remark_at(
    n: usize,
    m: usize,
    coefs: &[i32],
    kinds: &[u8],
    j: usize,
    signs: &mut [u8],
    old: &mut [i32],
    new: &[i32],
    marks: &mut [u8],
)
    requires { ColumnSigns n m coefs.now signs.old × (m ≤ length kinds.now) × (j < n)
        × (m ≤ length marks.old) × (2 * j + 1 < length old.old) × (2 * j + 1 < length new.now) }
    ensures left { old.new
        ≡ with_bounds old.old j (lower new.now j) (upper new.now j) }
    ensures marks { (r : ℕ) → r < m → get_or marks.new r 0 ≡ 1 → (get_or marks.old r 0 ≡ 1)
        × Unread n coefs.now kinds.now r old.old new.now j }
    ensures signs { ColumnSigns n m coefs.now signs.new }
{
    remark_bound(n, m, coefs, kinds, j, 1, 2 * j, signs, old, new, marks);
    remark_bound(n, m, coefs, kinds, j, 2, 2 * j + 1, signs, old, new, marks);
}

// The box `old` becomes the box `new`; rows that read a bound that moved are clean no more.
pub fn remark(
    n: usize,
    m: usize,
    coefs: &[i32],
    kinds: &[u8],
    signs: &mut [u8],
    steps: &[u8],
    start: usize,
    old: &mut [i32],
    new: &[i32],
    marks: &mut [u8],
)
    requires { Remarks n m coefs.now signs.old steps.now start old.old new.now marks.old
        × (m ≤ length kinds.now) }
    ensures left { old.new ≡ new.now }
    ensures marks { (r : ℕ) → r < m → get_or marks.new r 0 ≡ 1 → (get_or marks.old r 0 ≡ 1)
        × ((j : ℕ) → j < n → Unread n coefs.now kinds.now r old.old
        new.now j) }
    ensures signs { ColumnSigns n m coefs.now signs.new }
{
    // A `while`: the row's steps pass over the variables that it does not read.
    let mut j = 0;
    while j < n {
        if has_moved(old, new, j) {
            remark_at(n, m, coefs, kinds, j, signs, old, new, marks);
        }
        j += steps[start + j] as usize;
    }
}

// The same where any variable may have moved.
pub fn remark_all(
    n: usize,
    m: usize,
    coefs: &[i32],
    kinds: &[u8],
    signs: &mut [u8],
    old: &mut [i32],
    new: &[i32],
    marks: &mut [u8],
)
    requires { ColumnSigns n m coefs.now signs.old × (m ≤ length kinds.now) × (n ≤ max_variables)
        × (length old.old ≡ 2 * n) × (length new.now ≡ 2 * n) × (m ≤ length marks.old) }
    ensures left { old.new ≡ new.now }
    ensures marks { (r : ℕ) → r < m → get_or marks.new r 0 ≡ 1 → (get_or marks.old r 0 ≡ 1)
        × ((j : ℕ) → j < n → Unread n coefs.now kinds.now r old.old
        new.now j) }
    ensures signs { ColumnSigns n m coefs.now signs.new }
{
    let ones = [1u8; MAX_VARIABLES];
    remark(n, m, coefs, kinds, signs, &ones, 0, old, new, marks);
}
