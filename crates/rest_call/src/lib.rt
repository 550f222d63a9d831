// The open call that tests for the probing fixpoint (01's rest call), for any input. `meaning`: what a yes means;
// `found`: what a no means.
#![tactic(auto)]

ghost use Rattle.std.specs.Prelude.{[], ◌↔◌, ◌≡◌};
ghost use Rattle.semantics.specs.RestTest.{at_rest, rest_fault};
ghost use Rattle.call_laws.specs.Points.{AtRest};
ghost use Rattle.model.specs.Rows.{rows_of};
ghost use Rattle.model.specs.State.{state_of};
ghost use Rattle.reducer.specs.OpenCalls.{NoMeans, rest, rest_verdict, tested};

use model::refusal::Refusal;
use model_checks::check_model;
use rest::{Rest, test_rest};

// Whether the box is a probing fixpoint (01's rest call), and what shows that it is none.
#[tactic(auto, using(reducer::proofs::PromiseLaws::rest_promises))]
pub fn is_probing_fixpoint(
    n: usize,
    m: usize,
    bounds: &[i32],
    coefs: &[i32],
    rhs: &[i32],
    kinds: &[u8],
) -> Result<Rest, Refusal>
    ensures defined { let A = rows_of coefs.now rhs.now kinds.now in
        let s = state_of n m bounds.now A [] in
        rest_verdict result ≡ rest s }
    ensures meaning { let A = rows_of coefs.now rhs.now kinds.now in
        let s = state_of n m bounds.now A [] in
        (rest_verdict result ≡ tested at_rest) ↔ ((rest_fault s ≡ 0) × AtRest s) }
    ensures found { let A = rows_of coefs.now rhs.now kinds.now in
        let s = state_of n m bounds.now A [] in
        NoMeans s (rest_verdict result) }
{
    check_model(n, m, bounds, coefs, rhs, kinds, true)?;
    Ok(test_rest(n, m, bounds, coefs, rhs, kinds))
}
