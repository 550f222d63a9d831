// The checks of a call's own fields, on a model that passed its checks: 12 to 15 by field, and those of the calls that
// have two.
ghost use Rattle.std.specs.Prelude.{◌≡◌, ◌<◌};
ghost use Rattle.model.specs.Checks.{first};
ghost use Rattle.model.specs.Refusals.{fault_of};
ghost use Rattle.model.specs.Valid.{ValidBox};
ghost use Rattle.call.specs.FieldChecks.{budget_checks, probe_checks, row_checks, tightening_checks};
ghost use Rattle.call.specs.FieldChecks.{variable_checks};

use boxes::is_free;
use model::refusal::Refusal;
use propagation::MAX_BUDGET;

// 12: the row is not below m.
pub fn check_row(m: usize, row: u32) -> Result<(), Refusal>
    ensures { fault_of result ≡ first (row_checks m row) }
{
    if m <= row as usize {
        return Err(Refusal::Row);
    }
    Ok(())
}

// 13: the variable is not below n; 14: in a box that is not empty, it is not free binary.
fn check_variable(n: usize, bounds: &[i32], variable: u32) -> Result<(), Refusal>
    requires { ValidBox n bounds.now }
    ensures { fault_of result ≡ first (variable_checks n bounds.now variable) }
{
    let k = variable as usize;
    if n <= k {
        return Err(Refusal::Variable);
    }
    if boxes::is_empty(bounds) {
        return Ok(());
    }
    if !is_free(bounds, k) {
        return Err(Refusal::VariableNotFree);
    }
    Ok(())
}

// 15: the budget is not 1 to 8,388,481.
pub fn check_budget(budget: u32) -> Result<(), Refusal>
    ensures { fault_of result ≡ first (budget_checks budget) }
{
    if budget < 1 {
        return Err(Refusal::Budget);
    }
    if MAX_BUDGET < budget {
        return Err(Refusal::Budget);
    }
    Ok(())
}

// Of a probe: 13 and 14 of its variable, then 15 of its budget.
pub fn check_probe_fields(
    n: usize,
    bounds: &[i32],
    variable: u32,
    budget: u32,
) -> Result<(), Refusal>
    requires valid_box { ValidBox n bounds.now }
    requires n_nonzero { 0 < n }
    ensures { fault_of result ≡ first (probe_checks n bounds.now variable budget) }
{
    check_variable(n, bounds, variable)?;
    check_budget(budget)
}

// Of a coefficient tightening: 12 of its row, then 13 and 14 of its variable.
pub fn check_tightening_fields(
    n: usize,
    m: usize,
    bounds: &[i32],
    row: u32,
    variable: u32,
) -> Result<(), Refusal>
    requires valid_box { ValidBox n bounds.now }
    requires n_nonzero { 0 < n }
    ensures { fault_of result ≡ first (tightening_checks n m bounds.now row variable) }
{
    check_row(m, row)?;
    check_variable(n, bounds, variable)
}
