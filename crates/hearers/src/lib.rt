// The sets of rows that hear of a variable, gathered from a model and written into a workspace: for each variable those
// that hear a bound of it rise and those that hear one fall.
#![tactic(auto)]

ghost use Rattle.std.specs.Prelude.{true, ◌≡◌, ℕ, ◌*◌, ◌+◌, ◌<◌, ◌≤◌, eqb, length};
ghost use Rattle.prepared_model.specs.Layout.{fall_of, rise_of, workspace_len};
ghost use Rattle.prepared_model.specs.SameBut.{SameBut};
ghost use Rattle.row_set.specs.Bits.{bit_at};
ghost use Rattle.row_set.specs.Readers.{hears_fall, hears_rise};
ghost use Rattle.model.specs.Limits.{max_rows, max_variables};
ghost use Rattle.hearers.specs.Column.{Column};

use row_set::insert;
use workspace::{HEARERS_AT, put};

// Row r, with the coefficient a: a ≤ row hears rises where a is above 0 and falls where it is below, an = row hears
// both.
fn hear(kind: u8, a: i32, r: usize, rise: &mut [u32], fall: &mut [u32])
    requires { (r < 128) × (length rise.old ≡ 4) × (length fall.old ≡ 4) }
    ensures rising { hears_rise (eqb kind 1) a ≡ true → bit_at rise.new r ≡ 1 }
    ensures falling { hears_fall (eqb kind 1) a ≡ true → bit_at fall.new r ≡ 1 }
    ensures others { (i : ℕ) → (i ≡ r → ⊥) → (bit_at rise.new i ≡ bit_at rise.old i)
        × (bit_at fall.new i ≡ bit_at fall.old i) }
{
    if a == 0 {
        return;
    }
    if kind == 1 {
        insert(r, rise);
        insert(r, fall);
        return;
    }
    let is_positive = a > 0;
    if is_positive {
        insert(r, rise);
        return;
    }
    insert(r, fall);
}

// The sets of variable j, from empty ones.
fn gather(
    n: usize,
    m: usize,
    coefs: &[i32],
    kinds: &[u8],
    j: usize,
    rise: &mut [u32],
    fall: &mut [u32],
)
    requires { (j < n) × (n ≤ max_variables) × (m ≤ max_rows) × (length coefs.now ≡ m * n) × (length kinds.now ≡ m)
        × (length rise.old ≡ 4) × (length fall.old ≡ 4) }
    ensures { Column n m coefs.now kinds.now j rise.new fall.new }
{
    for r in 0..m {
        hear(kinds[r], coefs[r * n + j], r, rise, fall);
    }
}

// Writes the sets of variable j.
fn write_column(n: usize, m: usize, coefs: &[i32], kinds: &[u8], j: usize, ws: &mut [u32])
    requires { (j < n) × (n ≤ max_variables) × (m ≤ max_rows) × (length coefs.now ≡ m * n) × (length kinds.now ≡ m)
        × (length ws.old ≡ workspace_len) }
    ensures column { let W = ws.new in
        Column n m coefs.now kinds.now j (rise_of W j) (fall_of W j) }
    ensures others { SameBut (384 + 8 * j) (384 + 8 * j + 8) ws.old ws.new }
{
    let mut rise = [0u32; 4];
    let mut fall = [0u32; 4];
    gather(n, m, coefs, kinds, j, &mut rise, &mut fall);
    put(&rise, HEARERS_AT + 8 * j, ws);
    put(&fall, HEARERS_AT + 4 + 8 * j, ws);
}

// Writes the sets of every variable.
pub fn write_columns(n: usize, m: usize, coefs: &[i32], kinds: &[u8], ws: &mut [u32])
    requires { (n ≤ max_variables) × (m ≤ max_rows) × (length coefs.now ≡ m * n) × (length kinds.now ≡ m)
        × (length ws.old ≡ workspace_len) }
    ensures columns { let W = ws.new in
        ((j : ℕ) → j < n → Column n m coefs.now kinds.now j (rise_of W j) (fall_of W j)) }
    ensures others { SameBut 384 1_408 ws.old ws.new }
{
    for j in 0..n {
        write_column(n, m, coefs, kinds, j, ws);
    }
}
