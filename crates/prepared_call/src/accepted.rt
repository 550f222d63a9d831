// A prepared propagate call that is accepted: from the box that the workspace knows to the lent one, the passes, and
// what is kept of them.
ghost use Rattle.std.specs.Prelude.{Ok, ◌≡◌, length};
ghost use Rattle.prepared_checks.specs.Checks.{Accepting};
ghost use Rattle.prepared_call.specs.Core.{Keeping, Kept, Ran, Running};
ghost use Rattle.prepared_call.specs.PreparedCall.{PropagateAccepted};

use crate::PreparedPropagation;
use model::MAX_BOX;
use prepared_box::take_box;
use prepared_propagation::reasons::{NO_ROW, no_reasons};
use prepared_propagation::{PreparedEnd, propagate_prepared};
use propagation::Propagation;
use row_set::SET_WORDS;
use workspace::{keep_box, keep_set};

// The passes over a box that is not empty, with room for the box that the rows know. The rows still to be looked at are
// left in `dirty`.
fn run_in(
    ws: &[u32],
    bounds: &mut [i32],
    budget: u32,
    seen: &mut [i32],
    dirty: &mut [u32],
    reasons: &mut [u32],
) -> PreparedEnd
    requires { Running ws.now bounds.old dirty.old reasons.old × (length seen.old ≡ length bounds.old) }
    ensures { Ran budget ws.now bounds.old reasons.old result bounds.new
        dirty.new reasons.new }
{
    let n = ws[1] as usize;
    let m = ws[2] as usize;
    take_box(n, ws, bounds, seen, dirty);
    propagate_prepared(n, m, ws, bounds, budget, seen, dirty, reasons)
}

// The same, in room of its own.
fn run(
    ws: &[u32],
    bounds: &mut [i32],
    budget: u32,
    dirty: &mut [u32],
    reasons: &mut [u32],
) -> PreparedEnd
    requires { Running ws.now bounds.old dirty.old reasons.old }
    ensures { Ran budget ws.now bounds.old reasons.old result bounds.new
        dirty.new reasons.new }
{
    let len = bounds.len();
    let mut seen = [0i32; MAX_BOX];
    run_in(ws, bounds, budget, &mut seen[..len], dirty, reasons)
}

// Keeps the rows still to be looked at, and the box in which they are.
fn keep(bounds: &[i32], dirty: &[u32], ws: &mut [u32])
    requires { Keeping ws.old bounds.now dirty.now }
    ensures { Kept ws.old bounds.now dirty.now ws.new }
{
    keep_set(dirty, ws);
    keep_box(bounds, ws);
}

// The call.
pub fn propagate_accepted(
    ws: &mut [u32],
    bounds: &mut [i32],
    budget: u32,
    reasons: &mut [u32],
) -> PreparedPropagation
    requires { Accepting ws.old bounds.old reasons.old }
    ensures { PropagateAccepted budget ws.old bounds.old (length reasons.old) (Ok result)
        ws.new bounds.new reasons.new }
{
    no_reasons(reasons);
    if boxes::is_empty(bounds) {
        return PreparedPropagation::Infeasible(1, 0, NO_ROW);
    }
    let mut dirty = [0u32; SET_WORDS];
    let p = run(ws, bounds, budget, &mut dirty, reasons);
    let end = p.end;
    match end {
        Propagation::Infeasible(passes, moved) => {
            let last = p.row;
            PreparedPropagation::Infeasible(passes, moved, last)
        }
        Propagation::Converged(passes, moved) => {
            keep(bounds, &dirty, ws);
            PreparedPropagation::Converged(passes, moved)
        }
        Propagation::BudgetSpent(passes, moved) => {
            keep(bounds, &dirty, ws);
            PreparedPropagation::BudgetSpent(passes, moved)
        }
    }
}
