// The rows of a model, written into a workspace: of each row the words that `packed_row` reads, and its right side and
// kind in one number.
#![tactic(auto)]

ghost use Rattle.std.specs.Prelude.{◌≡◌, ℕ, ◌*◌, ◌+◌, ◌%◌, ◌<◌, ◌≤◌, drop, get_or, length, take};
ghost use Rattle.model.specs.Box.{at};
ghost use Rattle.model.specs.Limits.{max_coef, max_rhs, max_rows, max_variables, min_coef, min_rhs};
ghost use Rattle.model.specs.Rows.{row_of};
ghost use Rattle.model.specs.Valid.{Between};
ghost use Rattle.packed_row.specs.Words.{coefs_from, rhs_of};
ghost use Rattle.prepared_model.specs.Layout.{row_words, rhs_word_of, workspace_len};
ghost use Rattle.prepared_model.specs.SameBut.{SameBut};

use matrix::coefficients;
use model::{MAX_COEF, MAX_RHS};
use workspace::{RHS_AT, ROWS_AT, raised};

// Writes the words of a row from a place on: each coefficient with the number of zeros that follow it, from the row's
// end.
fn pack_row(coefs: &[i32], place: usize, ws: &mut [u32])
    requires { (length coefs.now ≤ max_variables) × ((i : ℕ) → Between min_coef max_coef (at coefs.now i))
        × (place + length coefs.now ≤ workspace_len) × (length ws.old ≡ workspace_len) }
    ensures row { let C = coefs.now in
        coefs_from (take (length C) (drop place ws.new)) 0 ≡ C }
    ensures others { SameBut place (place + length coefs.now) ws.old ws.new }
{
    let mut zeros: u32 = 0;
    for j in (0..coefs.len()).rev() {
        let a = coefs[j];
        ws[place + j] = raised(a, MAX_COEF) * 128 + zeros;
        if a != 0 {
            zeros = 0;
        } else {
            zeros += 1;
        }
    }
}

// Writes the words of every row.
pub fn pack_rows(n: usize, m: usize, coefs: &[i32], ws: &mut [u32])
    requires { (n ≤ max_variables) × (m ≤ max_rows) × (length coefs.now ≡ m * n)
        × ((i : ℕ) → Between min_coef max_coef (at coefs.now i)) × (length ws.old ≡ workspace_len) }
    ensures rows { (r : ℕ) → r < m → coefs_from (row_words n ws.new r) 0 ≡ row_of n coefs.now r }
    ensures others { SameBut 1_408 16_768 ws.old ws.new }
{
    for r in 0..m {
        pack_row(coefficients(n, coefs, r), ROWS_AT + r * n, ws);
    }
}

// Writes the right side and the kind of every row.
pub fn pack_rhs(m: usize, rhs: &[i32], kinds: &[u8], ws: &mut [u32])
    requires { (m ≤ max_rows) × (length rhs.now ≡ m) × ((i : ℕ) → Between min_rhs max_rhs (at rhs.now i))
        × (length kinds.now ≡ m) × ((i : ℕ) → get_or kinds.now i 0 < 2) × (length ws.old ≡ workspace_len) }
    ensures rhs_packed { (r : ℕ) → r < m → (rhs_of (rhs_word_of ws.new r) ≡ at rhs.now r)
        × (rhs_word_of ws.new r % 2 ≡ get_or kinds.now r 0) }
    ensures others { SameBut 264 384 ws.old ws.new }
{
    for r in 0..m {
        ws[RHS_AT + r] = raised(rhs[r], MAX_RHS) * 2 + u32::from(kinds[r]);
    }
}
