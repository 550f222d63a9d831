// The open call that probes a variable (01's probe), for any input. What holds of the open calls of `reducer` holds of
// it: any input, refused by the first check that fails, then unchanged.
#![tactic(auto)]

ghost use Rattle.std.specs.Prelude.{◌≡◌};
ghost use Rattle.semantics.specs.Perform.{perform};
ghost use Rattle.semantics.specs.Call.{call_of};
ghost use Rattle.model.specs.Rows.{rows_of};
ghost use Rattle.model.specs.State.{state_of};
ghost use Rattle.reducer.specs.OpenCalls.{Ends, Means, performed, probe_answer};

use model::refusal::Refusal;
use open_checks::check_probe;
use two_sides::Probing;

// Probes the free binary variable `variable`, each side with `budget` passes (01's probe). Refused by 10, 13 to
// 15.
#[tactic(auto, using(reducer::proofs::PromiseLaws::probing_promises))]
pub fn probe(
    n: usize,
    m: usize,
    bounds: &mut [i32],
    coefs: &[i32],
    rhs: &[i32],
    kinds: &[u8],
    table: &mut [u8],
    variable: u32,
    budget: u32,
) -> Result<Probing, Refusal>
    ensures defined { let A = rows_of coefs.now rhs.now kinds.now in
        let s = state_of n m bounds.old A table.old in
        let r' = state_of n m bounds.new A table.new in
        performed (probe_answer result) r' ≡ perform s (call_of s 3 0 variable budget) }
    ensures meaning { let A = rows_of coefs.now rhs.now kinds.now in
        let s = state_of n m bounds.old A table.old in
        let r' = state_of n m bounds.new A table.new in
        Means s r' (probe_answer result) }
    ensures ending { let A = rows_of coefs.now rhs.now kinds.now in
        let s = state_of n m bounds.old A table.old in
        let r' = state_of n m bounds.new A table.new in
        Ends (call_of s 3 0 variable budget) s r' (probe_answer result) }
{
    check_probe(n, m, bounds, coefs, rhs, kinds, table, variable, budget)?;
    let probing = probing::probe(
        n,
        m,
        bounds,
        coefs,
        rhs,
        kinds,
        table,
        variable as usize,
        budget,
    );
    Ok(probing)
}
