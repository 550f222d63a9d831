// The open calls: any n and m, any buffers with any contents, any numbers. Each refuses by the first
// check that fails and then changes nothing; everything else is accepted. In the contracts `s` is the state before
// the call and `r'` the state after it. `defined`: the answer and every lent buffer afterwards are what `perform`
// gives for the call made of the very n, m, numbers and buffer lengths handed over. `meaning`: what the answer means
// for the points; `ending`: that the call ended within its budget. Every call is refused by the model's checks first,
// 3, 5, 6, 7, 23, 8, 9 and 16 (`model_fault`), and then by those that its own comment names.
ghost use Rattle.std.specs.Prelude.{[], ◌≡◌};
ghost use Rattle.semantics.specs.Perform.{perform};
ghost use Rattle.semantics.specs.Call.{call_of};
ghost use Rattle.model.specs.Rows.{rows_of};
ghost use Rattle.model.specs.State.{state_of};
ghost use Rattle.reducer.specs.OpenCalls.{Ends, Means, performed, propagate_answer, row_answer};

use matrix_row::propagate_row_at;
use model::refusal::Refusal;
use open_checks::{check_propagation, check_row_call};
use propagation::Propagation;
use row::propagation::RowPropagation;

// Propagates row `row` once (01's visit). Refused by 12.
#[tactic(auto, using(crate::proofs::PromiseLaws::row_promises))]
pub fn propagate_row(
    n: usize,
    m: usize,
    bounds: &mut [i32],
    coefs: &[i32],
    rhs: &[i32],
    kinds: &[u8],
    row: u32,
) -> Result<RowPropagation, Refusal>
    ensures defined { let A = rows_of coefs.now rhs.now kinds.now in
        let s = state_of n m bounds.old A [] in
        let r' = state_of n m bounds.new A [] in
        performed (row_answer result) r' ≡ perform s (call_of s 1 row 0 0) }
    ensures meaning { let A = rows_of coefs.now rhs.now kinds.now in
        let s = state_of n m bounds.old A [] in
        let r' = state_of n m bounds.new A [] in
        Means s r' (row_answer result) }
{
    check_row_call(n, m, bounds, coefs, rhs, kinds, row)?;
    Ok(propagate_row_at(n, coefs, rhs, kinds, row as usize, bounds))
}

// Propagates all rows in at most `budget` passes (01's settle). Refused by 15.
#[tactic(auto, using(crate::proofs::PromiseLaws::rows_promises))]
pub fn propagate(
    n: usize,
    m: usize,
    bounds: &mut [i32],
    coefs: &[i32],
    rhs: &[i32],
    kinds: &[u8],
    budget: u32,
) -> Result<Propagation, Refusal>
    ensures defined { let A = rows_of coefs.now rhs.now kinds.now in
        let s = state_of n m bounds.old A [] in
        let r' = state_of n m bounds.new A [] in
        performed (propagate_answer result) r' ≡ perform s (call_of s 2 0 0 budget) }
    ensures meaning { let A = rows_of coefs.now rhs.now kinds.now in
        let s = state_of n m bounds.old A [] in
        let r' = state_of n m bounds.new A [] in
        Means s r' (propagate_answer result) }
    ensures ending { let A = rows_of coefs.now rhs.now kinds.now in
        let s = state_of n m bounds.old A [] in
        let r' = state_of n m bounds.new A [] in
        Ends (call_of s 2 0 0 budget) s r' (propagate_answer result) }
{
    check_propagation(n, m, bounds, coefs, rhs, kinds, budget)?;
    Ok(row_passes::propagate(n, m, bounds, coefs, rhs, kinds, budget))
}
