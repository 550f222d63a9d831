// The open calls that may change a row: coefficient tightening and the removal of a redundant row. What holds of the
// open calls of `reducer` holds of these: any input, refused by the first check that fails, then
// unchanged.
#![tactic(auto)]

ghost use Rattle.std.specs.Prelude.{[], ◌≡◌};
ghost use Rattle.semantics.specs.Perform.{perform};
ghost use Rattle.semantics.specs.Call.{call_of};
ghost use Rattle.model.specs.Rows.{rows_of};
ghost use Rattle.model.specs.State.{state_of};
ghost use Rattle.reducer.specs.OpenCalls.{Means, performed, remove_answer, tighten_answer};

use matrix_change::{remove_redundant_row_at, tighten_coefficient_at};
use model::refusal::Refusal;
use open_checks::{check_row_call, check_tightening};
use row::redundancy::RowRemoval;
use row::tightening::CoefficientTightening;

// Tightens the coefficient of the free binary variable `variable` in row `row` (01's sharpen). Refused by 12 to 14.
#[tactic(auto, using(reducer::proofs::PromiseLaws::tightening_promises))]
pub fn tighten_coefficient(
    n: usize,
    m: usize,
    bounds: &[i32],
    coefs: &mut [i32],
    rhs: &mut [i32],
    kinds: &[u8],
    row: u32,
    variable: u32,
) -> Result<CoefficientTightening, Refusal>
    ensures defined { let A = rows_of coefs.old rhs.old kinds.now in
        let A' = rows_of coefs.new rhs.new kinds.now in
        let s = state_of n m bounds.now A [] in
        let r' = state_of n m bounds.now A' [] in
        performed (tighten_answer result) r' ≡ perform s (call_of s 4 row variable 0) }
    ensures meaning { let A = rows_of coefs.old rhs.old kinds.now in
        let A' = rows_of coefs.new rhs.new kinds.now in
        let s = state_of n m bounds.now A [] in
        let r' = state_of n m bounds.now A' [] in
        Means s r' (tighten_answer result) }
{
    check_tightening(n, m, bounds, coefs, rhs, kinds, row, variable)?;
    let outcome = tighten_coefficient_at(
        n,
        coefs,
        rhs,
        kinds,
        row as usize,
        bounds,
        variable as usize,
    );
    Ok(outcome)
}

// Removes row `row` where the box implies it (01's drop). Refused by 12.
#[tactic(auto, using(reducer::proofs::PromiseLaws::removal_promises))]
pub fn remove_redundant_row(
    n: usize,
    m: usize,
    bounds: &[i32],
    coefs: &mut [i32],
    rhs: &mut [i32],
    kinds: &mut [u8],
    row: u32,
) -> Result<RowRemoval, Refusal>
    ensures defined { let A = rows_of coefs.old rhs.old kinds.old in
        let A' = rows_of coefs.new rhs.new kinds.new in
        let s = state_of n m bounds.now A [] in
        let r' = state_of n m bounds.now A' [] in
        performed (remove_answer result) r' ≡ perform s (call_of s 5 row 0 0) }
    ensures meaning { let A = rows_of coefs.old rhs.old kinds.old in
        let A' = rows_of coefs.new rhs.new kinds.new in
        let s = state_of n m bounds.now A [] in
        let r' = state_of n m bounds.now A' [] in
        Means s r' (remove_answer result) }
{
    check_row_call(n, m, bounds, coefs, rhs, kinds, row)?;
    Ok(remove_redundant_row_at(n, coefs, rhs, kinds, row as usize, bounds))
}
