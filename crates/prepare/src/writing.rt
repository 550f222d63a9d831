// A workspace is written, from its head to its rows.
ghost use Rattle.std.specs.Prelude.{◌≡◌, ℕ, ◌*◌, ◌<◌, ◌≤◌, get_or, length, replicate, pos};
ghost use Rattle.model.specs.Limits.{max_rows, max_variables};
ghost use Rattle.model.specs.Model.{model_of};
ghost use Rattle.model.specs.Rows.{rows_of};
ghost use Rattle.model.specs.Valid.{ValidModel};
ghost use Rattle.prepared_model.specs.Layout.{our_mark, rows_in, variables_of, workspace_len};
ghost use Rattle.prepared_model.specs.SameBut.{SameBut};
ghost use Rattle.prepare.specs.Written.{Written};

use hearers::write_columns;
use pack::{pack_rhs, pack_rows};
use workspace::{BOX_AT, OUR_MARK, RAISE, RHS_AT, SET_AT};

// The bound 0, as it is kept.
const RAISED_ZERO: u32 = RAISE as u32;

// Writes our mark, n and m.
fn write_head(n: usize, m: usize, ws: &mut [u32])
    requires { (n ≤ max_variables) × (m ≤ max_rows) × (length ws.old ≡ workspace_len) }
    ensures head { let W = ws.new in
        (get_or W 0 0 ≡ our_mark) × (variables_of W ≡ n) × (rows_in W ≡ m) }
    ensures others { SameBut 0 4 ws.old ws.new }
{
    ws[0] = OUR_MARK;
    ws[1] = n as u32;
    ws[2] = m as u32;
    ws[3] = 0;
}

// Writes one number at every place from `from` on and below `to`.
fn fill(from: usize, to: usize, number: u32, ws: &mut [u32])
    requires { (from ≤ to) × (to ≤ workspace_len) × (length ws.old ≡ workspace_len) }
    ensures numbers { (i : ℕ) → from ≤ i → i < to → get_or ws.new i 0 ≡ number }
    ensures others { SameBut from to ws.old ws.new }
{
    ws[from..to].fill(number);
}

// Writes all of a model's rows that passed the checks.
pub fn write(n: usize, m: usize, coefs: &[i32], rhs: &[i32], kinds: &[u8], ws: &mut [u32])
    requires { let A = rows_of coefs.now rhs.now kinds.now in
        ValidModel (model_of n m (replicate (2 * n) (pos 0)) A) × (length ws.old ≡ workspace_len) }
    ensures { let A = rows_of coefs.now rhs.now kinds.now in
        Written n m A ws.new }
{
    write_head(n, m, ws);
    fill(SET_AT, BOX_AT, 4_294_967_295, ws);
    fill(BOX_AT, RHS_AT, RAISED_ZERO, ws);
    pack_rhs(m, rhs, kinds, ws);
    write_columns(n, m, coefs, kinds, ws);
    pack_rows(n, m, coefs, ws);
}
