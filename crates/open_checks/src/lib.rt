// The checks of an open call, in 01's order: those of the model that it is lent, then those of its own fields (12 to
// 15). Each call knows its kind, so no number of a kind is looked at here: 11 is the check of a list's record.
#![tactic(auto)]

ghost use Rattle.std.specs.Prelude.{[], ◌≡◌};
ghost use Rattle.semantics.specs.CallChecks.{call_fault};
ghost use Rattle.semantics.specs.Call.{call_of};
ghost use Rattle.model.specs.Refusals.{fault_of};
ghost use Rattle.model.specs.Rows.{rows_of};
ghost use Rattle.model.specs.State.{state_of};

use call::checks::{check_budget, check_probe_fields, check_row, check_tightening_fields};
use model::refusal::Refusal;

// The number by which a call that has a row alone (01's visit and drop) is refused, 0 where it is accepted.
pub fn check_row_call(
    n: usize,
    m: usize,
    bounds: &[i32],
    coefs: &[i32],
    rhs: &[i32],
    kinds: &[u8],
    row: u32,
) -> Result<(), Refusal>
    ensures propagated { let A = rows_of coefs.now rhs.now kinds.now in
        let s = state_of n m bounds.now A [] in
        fault_of result ≡ call_fault s (call_of s 1 row 0 0) }
    ensures removed { let A = rows_of coefs.now rhs.now kinds.now in
        let s = state_of n m bounds.now A [] in
        fault_of result ≡ call_fault s (call_of s 5 row 0 0) }
{
    model_checks::check_model(n, m, bounds, coefs, rhs, kinds, true)?;
    check_row(m, row)
}

// The same of a propagation of all rows (01's settle), which has a budget alone.
pub fn check_propagation(
    n: usize,
    m: usize,
    bounds: &[i32],
    coefs: &[i32],
    rhs: &[i32],
    kinds: &[u8],
    budget: u32,
) -> Result<(), Refusal>
    ensures { let A = rows_of coefs.now rhs.now kinds.now in
        let s = state_of n m bounds.now A [] in
        fault_of result ≡ call_fault s (call_of s 2 0 0 budget) }
{
    model_checks::check_model(n, m, bounds, coefs, rhs, kinds, true)?;
    check_budget(budget)
}

// The same of a coefficient tightening (01's sharpen).
pub fn check_tightening(
    n: usize,
    m: usize,
    bounds: &[i32],
    coefs: &[i32],
    rhs: &[i32],
    kinds: &[u8],
    row: u32,
    variable: u32,
) -> Result<(), Refusal>
    ensures { let A = rows_of coefs.now rhs.now kinds.now in
        let s = state_of n m bounds.now A [] in
        fault_of result ≡ call_fault s (call_of s 4 row variable 0) }
{
    model_checks::check_model(n, m, bounds, coefs, rhs, kinds, true)?;
    check_tightening_fields(n, m, bounds, row, variable)
}

// The same of a probe, which is lent a table.
pub fn check_probe(
    n: usize,
    m: usize,
    bounds: &[i32],
    coefs: &[i32],
    rhs: &[i32],
    kinds: &[u8],
    table: &[u8],
    variable: u32,
    budget: u32,
) -> Result<(), Refusal>
    ensures { let A = rows_of coefs.now rhs.now kinds.now in
        let s = state_of n m bounds.now A table.now in
        fault_of result ≡ call_fault s (call_of s 3 0 variable budget) }
{
    model_checks::check_model_with_table(n, m, bounds, coefs, rhs, kinds, table, true)?;
    check_probe_fields(n, bounds, variable, budget)
}
