// The two calls on a prepared model as C is told of them: behind one check more, of the answer's length, and with the
// answer written into its places.
#![tactic(auto)]

ghost use Rattle.prepared_exports.specs.PreparedSaid.{ProbeSaid, PropagateSaid};

use model::refusal::Refusal;
use prepared_call::propagate;
use prepared_probe::probe;
use prepared_replies::{prepared_reply, put_probe};
use replies::reply::{ANSWER, put};

// 01's settle: {0 None | 1 Settled | 2 Spent, passes, moved, the infeasible row}. Refused by 5, 6, 7, 23 and 15.
pub fn propagate_said(
    workspace: &mut [u32],
    bounds: &mut [i32],
    budget: u32,
    reasons: &mut [u32],
    answer: &mut [u64],
) -> u32
    ensures { PropagateSaid budget workspace.old bounds.old reasons.old
        answer.old result workspace.new bounds.new reasons.new
        answer.new }
{
    if answer.len() != ANSWER {
        return Refusal::BufferLength.number();
    }
    put(
        prepared_reply(propagate(workspace, bounds, budget, reasons)),
        answer,
    )
}

// 01's probe: the answer is that of any probe, then the infeasible rows of the two sides. Refused by 5, 6, 7, 23, 10,
// 13, 14 and 15.
pub fn probe_said(
    workspace: &mut [u32],
    bounds: &mut [i32],
    table: &mut [u8],
    variable: u32,
    budget: u32,
    reasons: &mut [u32],
    answer: &mut [u64],
) -> u32
    ensures { ProbeSaid variable budget workspace.old bounds.old table.old
        reasons.old answer.old result workspace.new bounds.new table.new
        reasons.new answer.new }
{
    if answer.len() != ANSWER {
        return Refusal::BufferLength.number();
    }
    put_probe(
        probe(workspace, bounds, table, variable, budget, reasons),
        answer,
    )
}
