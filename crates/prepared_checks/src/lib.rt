// The checks of the prepared calls, in 01's order: those of what a call is lent, then its own. The rows were checked
// when they were prepared.
#![tactic(auto)]

ghost use Rattle.std.specs.Prelude.{◌&&◌, ◌≡◌, ◌*◌, ◌≤◌, eqb, length};
ghost use Rattle.prepared_model.specs.Layout.{is_ours, variables_of};
ghost use Rattle.model.specs.Limits.{max_variables};
ghost use Rattle.model.specs.Refusals.{fault_of};
ghost use Rattle.prepared_checks.specs.Checks.{probe_fault, propagate_fault, reasons_fit, sides_fit};

use box_checks::check_box;
use buffer_checks::is_bits;
use call::checks::{check_budget, check_probe_fields};
use model::refusal::Refusal;
use workspace::is_ours;

// Whether the workspace is ours and every other list has its length.
fn fits(ws: &[u32], bounds: &[i32], reasons: &[u32]) -> bool
    ensures { let W = ws.now in
        let n = variables_of W in
        result ≡ (is_ours W && (eqb (length bounds.now) (2 * n) && reasons_fit n reasons.now)) }
{
    if !is_ours(ws) {
        return false;
    }
    let len = 2 * (ws[1] as usize);
    bounds.len() == len && (reasons.is_empty() || reasons.len() == len)
}

// Refuses a propagation by the first check that fails: 5 of all that is lent, 6, 7 and 23, 15.
pub fn check_propagation(
    ws: &[u32],
    bounds: &[i32],
    budget: u32,
    reasons: &[u32],
) -> Result<(), Refusal>
    ensures { fault_of result ≡ propagate_fault ws.now bounds.now reasons.now budget }
{
    if !fits(ws, bounds, reasons) {
        return Err(Refusal::BufferLength);
    }
    check_box(ws[1] as usize, bounds)?;
    check_budget(budget)
}

// Whether the reasons are none, or 2n for each side.
fn sides_fit(n: usize, reasons: &[u32]) -> bool
    requires { n ≤ max_variables }
    ensures { result ≡ sides_fit n reasons.now }
{
    reasons.is_empty() || reasons.len() == 4 * n
}

// Refuses a probe by the first check that fails: 5 of all that is lent, 6, 7 and 23, 10, 13 to 15.
pub fn check_probe(
    ws: &[u32],
    bounds: &[i32],
    table: &[u8],
    variable: u32,
    budget: u32,
    reasons: &[u32],
) -> Result<(), Refusal>
    ensures { fault_of result
        ≡ probe_fault ws.now bounds.now table.now reasons.now variable budget }
{
    if !is_ours(ws) {
        return Err(Refusal::BufferLength);
    }
    let n = ws[1] as usize;
    if bounds.len() != 2 * n {
        return Err(Refusal::BufferLength);
    }
    if table.len() != 4 * (n * n) {
        return Err(Refusal::BufferLength);
    }
    if !sides_fit(n, reasons) {
        return Err(Refusal::BufferLength);
    }
    check_box(n, bounds)?;
    if !is_bits(table) {
        return Err(Refusal::TableByte);
    }
    check_probe_fields(n, bounds, variable, budget)
}
