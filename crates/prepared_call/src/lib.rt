// The prepared propagate call (01's settle), open to all: a model that `prepare` wrote into a workspace, and a lent
// box. Only rows are looked at that may move a bound, given the box that the last call left. W is the workspace, B the
// box before the call. Of any workspace: `refused`, and `accepted` as far as it does not ask for a prepared one. Of one
// that is prepared for the rows A, whichever they are: `defined`, the answer, the counts and the box are those of
// `perform` on the model with the lent box, and `prepared`, it still is prepared for them.
#![tactic(auto)]

mod accepted;

ghost use Rattle.std.specs.Prelude.{◌≡◌, true, [], length};
ghost use Rattle.model.specs.Rows.{Rows};
ghost use Rattle.model.specs.State.{state_of};
ghost use Rattle.prepared_checks.specs.Checks.{propagate_fault, reasons_fit};
ghost use Rattle.prepared_model.specs.Layout.{rows_in, variables_of};
ghost use Rattle.prepared_model.specs.Prepared.{Prepared};
ghost use Rattle.reducer.specs.OpenCalls.{performed};
ghost use Rattle.semantics.specs.Call.{call_of};
ghost use Rattle.semantics.specs.Perform.{perform, refused};
ghost use Rattle.prepared_call.specs.PreparedCall.{PropagateAccepted, prepared_answer};

use crate::accepted::propagate_accepted;
use model::refusal::Refusal;
use prepared_checks::check_propagation;

// 01's settle: None, Settled, Spent, with the passes made and the number of bounds moved; None with the row that was
// infeasible, `NO_ROW` where the lent box was empty: the C interface has that number there.
#[derive(Clone, Copy)]
pub enum PreparedPropagation {
    Infeasible(u32, u32, u32),
    Converged(u32, u32),
    BudgetSpent(u32, u32),
}

// Propagates all rows in at most `budget` passes. Refused by 5 (workspace, 2n bounds, 0 or 2n reasons), 6, 7, 23, 15.
pub fn propagate(
    ws: &mut [u32],
    bounds: &mut [i32],
    budget: u32,
    reasons: &mut [u32],
) -> Result<PreparedPropagation, Refusal>
    ensures refused { let W = ws.old in
        let fault = propagate_fault W bounds.old reasons.old budget in
        ((fault ≡ 0 → ⊥) → (prepared_answer result ≡ refused fault) × (ws.new ≡ W)
        × (bounds.new ≡ bounds.old) × (reasons.new ≡ reasons.old)) }
    ensures accepted { let W = ws.old in
        let B = bounds.old in
        (propagate_fault W B reasons.old budget ≡ 0
        → PropagateAccepted budget W B (length reasons.old) result ws.new bounds.new
        reasons.new) }
    ensures defined { let W = ws.old in
        ((A : Rows) → Prepared W A → reasons_fit (variables_of W) reasons.old ≡ true
        → let s = state_of (variables_of W) (rows_in W) bounds.old A [] in
        let r' = state_of (variables_of W) (rows_in W) bounds.new A [] in
        performed (prepared_answer result) r' ≡ perform s (call_of s 2 0 0 budget)) }
    ensures prepared { (A : Rows) → Prepared ws.old A → Prepared ws.new A }
{
    check_propagation(ws, bounds, budget, reasons)?;
    Ok(propagate_accepted(ws, bounds, budget, reasons))
}
