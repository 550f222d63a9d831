// The workspace of a prepared model: a lent buffer of 32-bit numbers. Whatever it holds, what is read from it is in
// range; whether it was written by us is asked of its length and head alone.
#![tactic(auto)]

ghost use Rattle.std.specs.Prelude.{◌≡◌, ℕ, ◌*◌, ◌+◌, ◌<◌, ◌≤◌, neg_ℤ, pos, ◌+ℤ◌, drop, get_or, length, take, ◌≤ℤ◌};
ghost use Rattle.model.specs.Box.{at};
ghost use Rattle.model.specs.Limits.{max_bound, max_box, max_rhs, min_bound};
ghost use Rattle.model.specs.Valid.{Between};
ghost use Rattle.prepared_model.specs.Layout.{bound_of, box_in, dirty_of, is_ours, workspace_len};
ghost use Rattle.prepared_model.specs.SameBut.{SameBut};

use model::{MAX_ROWS, MAX_VARIABLES, MIN_BOUND};

pub const WORKSPACE_LEN: usize = 16_768;

// Where the rows to look at stand in it.
pub const SET_AT: usize = 4;

// The box that is kept.
pub const BOX_AT: usize = 8;

// The right side and the kind of each row.
pub const RHS_AT: usize = 264;

// The rows that hear of each variable.
pub const HEARERS_AT: usize = 384;

// The words of the rows.
pub const ROWS_AT: usize = 1_408;

// "AST1", as bytes.
pub const OUR_MARK: u32 = 827_609_921;

const MOST_VARIABLES: u32 = MAX_VARIABLES as u32;

const MOST_ROWS: u32 = MAX_ROWS as u32;

// A bound is kept raised, so that it is not below 0; so many bounds there are.
pub const RAISE: i32 = -MIN_BOUND;

const BOUNDS: u32 = 65_536;

// Whether its length and head are ours.
pub fn is_ours(ws: &[u32]) -> bool
    ensures { result ≡ is_ours ws.now }
{
    if ws.len() != WORKSPACE_LEN {
        return false;
    }
    let is_foreign = ws[0] != OUR_MARK;
    if is_foreign {
        return false;
    }
    if ws[1] < 1 {
        return false;
    }
    if ws[1] > MOST_VARIABLES {
        return false;
    }
    ws[2] <= MOST_ROWS
}

// A bound in a number of the workspace.
fn bound(word: u32) -> i32
    ensures { result ≡ bound_of word }
{
    ((word % BOUNDS) as i32) - RAISE
}

// Number i of the box that is kept.
pub fn kept_bound(ws: &[u32], i: usize) -> i32
    requires { (length ws.now ≡ workspace_len) × (i < max_box) }
    ensures { result ≡ bound_of (get_or ws.now (8 + i) 0) }
{
    bound(ws[BOX_AT + i])
}

// Writes numbers from a place on.
pub fn put(numbers: &[u32], place: usize, ws: &mut [u32])
    requires { (place + length numbers.now ≤ length ws.old) × (length ws.old ≡ workspace_len) }
    ensures numbers { take (length numbers.now) (drop place ws.new) ≡ numbers.now }
    ensures others { SameBut place (place + length numbers.now) ws.old ws.new }
{
    ws[place..place + numbers.len()].copy_from_slice(numbers);
}

// Keeps the rows to look at.
pub fn keep_set(dirty: &[u32], ws: &mut [u32])
    requires { (length dirty.now ≡ 4) × (length ws.old ≡ workspace_len) }
    ensures kept { dirty_of ws.new ≡ dirty.now }
    ensures others { SameBut 4 8 ws.old ws.new }
{
    put(dirty, SET_AT, ws);
}

// z + by, which is not below 0.
pub fn raised(z: i32, by: i32) -> u32
    requires { (neg_ℤ by ≤ℤ z) × (z ≤ℤ by) × (by ≤ℤ max_rhs) }
    ensures { pos result ≡ z +ℤ by }
{
    (z + by) as u32
}

// Keeps a box.
pub fn keep_box(bounds: &[i32], ws: &mut [u32])
    requires { (length bounds.now ≤ max_box) × ((i : ℕ) → Between min_bound max_bound (at bounds.now i))
        × (length ws.old ≡ workspace_len) }
    ensures kept { (n : ℕ) → length bounds.now ≡ 2 * n → box_in n ws.new ≡ bounds.now }
    ensures others { SameBut 8 264 ws.old ws.new }
{
    for (i, &bound) in bounds.iter().enumerate() {
        ws[BOX_AT + i] = raised(bound, RAISE);
    }
}
