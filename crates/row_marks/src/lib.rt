// The rows that a pass may pass over. A row is clean, its mark 1, while propagating it is known to move nothing: a ≤
// row was just propagated (`kinded-after`), an = row was and moved nothing; or it was clean and since then no bound
// moved that it reads (`kinded-kept`: the other bounds of a smaller box only leave more room). A ≤ row reads the lower
// bound where its coefficient is above 0 and the upper one where it is below; an = row, by its two forms, reads both.
// So a clean row's answer, Unchanged, is exact. A row that read a moved bound is dirty, 2; 0 is a row that was not
// propagated yet. A mark is a byte and no enum: `Clean` speaks of its numbers, and the loop over the marks is compiled
// to vector instructions.
#![tactic(auto)]

ghost use Rattle.std.specs.Prelude.{false, true, ◌≡◌, ℕ, ◌*◌, ◌+◌, ◌<◌, ◌≤◌, length, get_or};
ghost use Rattle.model.specs.Box.{lower, upper};
ghost use Rattle.row_marks.specs.Marks.{reads};

// Copies marks over others of the same length.
pub fn copy_marks(from: &[u8], to: &mut [u8])
    requires { length from.now ≡ length to.old }
    ensures { to.new ≡ from.now }
{
    to.copy_from_slice(from);
}

// The mark of a row that has just moved a bound: a ≤ row moves nothing when it is propagated again; an = row may.
pub fn after(kind: u8) -> u8
    ensures { result ≡ 1 → kind ≡ 1 → ⊥ }
{
    if kind == 1 { 2 } else { 1 }
}

// The mark of a row of the given kind whose coefficient has the sign s, once a bound moved that ≤ rows of the given
// sign read: an = row reads both bounds. It is one sum of tests, without a branch, so that the loop over it is compiled
// to vector instructions.
fn kept(kind: u8, s: u8, sign: u8, mark: u8) -> u8
    ensures { result ≡ 1 → (mark ≡ 1) × (reads kind s sign ≡ false) }
{
    let read = (s == sign) as u8 * 2 + (kind == 1) as u8 + (s != 3) as u8;
    if read < 2 {
        return mark;
    }
    if mark == 1 { 2 } else { mark }
}

// Rows that read the bound of the given sign in the column at `start` are clean no more.
pub fn unmark(m: usize, kinds: &[u8], signs: &[u8], start: usize, sign: u8, marks: &mut [u8])
    requires { (m ≤ length kinds.now) × (start + m ≤ length signs.now) × (m ≤ length marks.old) }
    ensures { (r : ℕ) → r < m → get_or marks.new r 0 ≡ 1 → (get_or marks.old r 0 ≡ 1)
        × (reads (get_or kinds.now r 0) (get_or signs.now (start + r) 0) sign ≡ false) }
{
    for r in 0..m {
        marks[r] = kept(kinds[r], signs[start + r], sign, marks[r]);
    }
}

// Whether a bound of variable j moved. Most have not, so this is asked in the loop and costs no call.
pub fn has_moved(old: &[i32], new: &[i32], j: usize) -> bool
    requires { (2 * j + 1 < length old.now) × (2 * j + 1 < length new.now) }
    ensures { result ≡ false → (lower new.now j ≡ lower old.now j)
        × (upper new.now j ≡ upper old.now j) }
{
    let lower_moved = old[2 * j] != new[2 * j];
    let upper_moved = old[2 * j + 1] != new[2 * j + 1];
    lower_moved || upper_moved
}

// The next row to propagate, from r on: it is not clean. m if there is none.
pub fn next_row(m: usize, marks: &[u8], r: usize) -> usize
    requires { (r ≤ m) × (m ≤ length marks.now) }
    ensures { (r ≤ result) × (result ≤ m) × ((i : ℕ) → r ≤ i → i < result → get_or marks.now i 0 ≡ 1) }
{
    for s in r..m {
        let is_open = marks[s] != 1;
        if is_open {
            return s;
        }
    }
    m
}
