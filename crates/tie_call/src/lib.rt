// The call that ties j to k (02, C-19), open like those of the reducer: any n and m, any buffers with any contents, any
// k and j. `ties` has a place for each variable: 0 for no tie, or 1 plus the number of the literal of k that holds just
// when j is 1.
#![tactic(auto)]

ghost use Rattle.std.specs.Prelude.{[], ◌≡◌, ◌<◌, ◌≤◌, ◌*◌, length, MatchOption};
ghost use Rattle.model.specs.Refusals.{fault_of};
ghost use Rattle.model.specs.Rows.{rows_of};
ghost use Rattle.model.specs.Valid.{ValidTable};
ghost use Rattle.ties.specs.TieCall.{can_tie, perform_tie, places_fit, says as says_of, tie_call_of, tie_fault, value_said};
ghost use Rattle.ties.specs.TiedRun.{TieKeeps};
ghost use Rattle.ties.specs.Ties.{tied_state_of};
ghost use Rattle.tied_row.specs.SmallRow.{SmallRows};
ghost use Rattle.model.specs.Limits.{max_variables};
ghost use Rattle.tie_call.specs.TieAnswers.{performed_tie};

use boxes::is_free;
use model::refusal::Refusal;
use model_checks::check_model_with_table;
use tied_row::{rows_fit, tie_rows};

// Tied, Same: what an accepted call did.
#[derive(Clone, Copy, PartialEq, Eq)]
pub enum TieMade {
    Tied,
    Unchanged,
}

// Whether no place of the list is above 2n (check 21).
fn places_fit(n: usize, ties: &[u16]) -> bool
    requires { n ≤ max_variables }
    ensures { result ≡ places_fit n ties.now }
{
    let most = 2 * n;
    let mut ok = true;
    for &place in ties {
        ok &= place as usize <= most;
    }
    ok
}

// The checks of the call: those of the model and the table, 21, and 13 of k and of j.
fn check_tie(
    n: usize,
    m: usize,
    bounds: &[i32],
    coefs: &[i32],
    rhs: &[i32],
    kinds: &[u8],
    table: &[u8],
    ties: &[u16],
    k: u32,
    j: u32,
) -> Result<(), Refusal>
    ensures { let A = rows_of coefs.now rhs.now kinds.now in
        let s = tied_state_of n m bounds.now A table.now ties.now in
        fault_of result ≡ tie_fault s (tie_call_of s k j) }
{
    let fits = ties.len() == n;
    check_model_with_table(n, m, bounds, coefs, rhs, kinds, table, fits)?;
    if !places_fit(n, ties) {
        return Err(Refusal::TiePlace);
    }
    if n <= k as usize {
        return Err(Refusal::Variable);
    }
    if n <= j as usize {
        return Err(Refusal::Variable);
    }
    Ok(())
}

// Whether the table says that k at 0 gives j at w and k at 1 gives j at 1 − w.
fn says(n: usize, table: &[u8], k: usize, j: usize, w: usize) -> bool
    requires valid_table { ValidTable n table.now × (n ≤ max_variables) }
    requires k_lt_n { (k < n) × (j < n) × (w < 2) }
    ensures { result ≡ says_of n table.now k j w }
{
    let at0 = 2 * k * (2 * n) + (2 * j + w);
    let at1 = (2 * k + 1) * (2 * n) + (2 * j + (1 - w));
    (table[at0] == 1) & (table[at1] == 1)
}

// The w by which the table ties j to k, 0 where it says both; none where it says neither.
fn value_said(n: usize, table: &[u8], k: usize, j: usize) -> Option<u32>
    requires valid_table { ValidTable n table.now × (n ≤ max_variables) }
    requires k_lt_n { (k < n) × (j < n) }
    ensures { let said = value_said n table.now k j in
        MatchOption result (said ≡ 2) (λ w. (w ≡ said) × (w < 2)) }
{
    if says(n, table, k, j, 0) {
        return Some(0);
    }
    if says(n, table, k, j, 1) {
        return Some(1);
    }
    None
}

// Whether nothing is in the way: k and j are two free binary variables, neither is replaced already, and every row's
// numbers stay within their limits.
fn can_tie(
    n: usize,
    m: usize,
    bounds: &[i32],
    coefs: &[i32],
    rhs: &[i32],
    ties: &[u16],
    k: usize,
    j: usize,
    w: u32,
) -> bool
    requires small_rows { SmallRows n m (rows_of coefs.now rhs.now []) × ((k < n) × (j < n)) }
    requires bounds_len { (length bounds.now ≡ 2 * n) × (length ties.now ≡ n) }
    ensures { let A = rows_of coefs.now rhs.now [] in
        let s = tied_state_of n m bounds.now A [] ties.now in
        result ≡ can_tie s k j w }
{
    if k == j {
        return false;
    }
    if !is_free(bounds, k) {
        return false;
    }
    if !is_free(bounds, j) {
        return false;
    }
    if ties[k] != 0 {
        return false;
    }
    if ties[j] != 0 {
        return false;
    }
    rows_fit(n, m, coefs, rhs, k, j, w)
}

// Ties j to k where the table says so and nothing is in the way: puts it into every row, zeroes j's column and sets
// place j. Refused by the model's checks, 10, 21 and 13.
pub fn tie(
    n: usize,
    m: usize,
    bounds: &[i32],
    coefs: &mut [i32],
    rhs: &mut [i32],
    kinds: &[u8],
    table: &[u8],
    ties: &mut [u16],
    k: u32,
    j: u32,
) -> Result<TieMade, Refusal>
    ensures defined { let A = rows_of coefs.old rhs.old kinds.now in
        let A' = rows_of coefs.new rhs.new kinds.now in
        let s = tied_state_of n m bounds.now A table.now ties.old in
        let r' = tied_state_of n m bounds.now A' table.now ties.new in
        performed_tie result r' ≡ perform_tie s (tie_call_of s k j) }
    ensures meaning { let A = rows_of coefs.old rhs.old kinds.now in
        let A' = rows_of coefs.new rhs.new kinds.now in
        let s = tied_state_of n m bounds.now A table.now ties.old in
        let r' = tied_state_of n m bounds.now A' table.now ties.new in
        TieKeeps s r' }
{
    check_tie(n, m, bounds, coefs, rhs, kinds, table, ties, k, j)?;
    let kept = k as usize;
    let replaced = j as usize;
    let Some(w) = value_said(n, table, kept, replaced) else {
        return Ok(TieMade::Unchanged);
    };
    if !can_tie(n, m, bounds, coefs, rhs, ties, kept, replaced, w) {
        return Ok(TieMade::Unchanged);
    }
    tie_rows(n, m, coefs, rhs, kept, replaced, w);
    let place = 2 * k + 2 - w;
    ties[replaced] = place as u16;
    Ok(TieMade::Tied)
}
