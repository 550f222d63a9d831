// What the calls on a prepared model say in the C interface: the reply to a propagation, with the row that was
// infeasible in a place of its own, and that of any probe, with a row for each side.
#![tactic(auto)]

ghost use Rattle.std.specs.Prelude.{◌≡◌, length};
ghost use Rattle.prepared_call.specs.PreparedCall.{infeasible_row, prepared_answer};
ghost use Rattle.prepared_probe.specs.ProbeAnswers.{prepared_probe_answer, row0_of, row1_of};
ghost use Rattle.replies.specs.Replies.{answer_length, call_reply, numbered_reply, reply_of, returned, written};
ghost use Rattle.replies.specs.declared.reply.Reply.TheVariants.{Numbers};
ghost use Rattle.prepared_replies.specs.PreparedReplies.{prepared_reply, with_rows};

use call_replies::probe_reply;
use prepared_call::PreparedPropagation;
use prepared_propagation::reasons::NO_ROW;
use prepared_sides::ProbedSides;
use replies::numbered::Numbered;
use replies::reply::{Reply, put};

fn ended(case: u64, passes: u32, moved: u32, row: u32) -> Reply
    ensures { result ≡ Numbers case passes moved row }
{
    Reply::Numbers(case, passes as u64, moved as u64, row as u64)
}

#[tactic(auto, unfolding(replies::specs::Replies::call_reply, replies::specs::Replies::ending_case, replies::specs::Replies::reply_of, prepared_call::specs::PreparedCall::prepared_answer, prepared_call::specs::PreparedCall::infeasible_row, crate::specs::PreparedReplies::prepared_reply))]
pub fn prepared_reply<E: Numbered>(told: Result<PreparedPropagation, E>) -> Reply
    ensures { reply_of result
        ≡ numbered_reply E.number (λ r. prepared_reply (prepared_answer r) (infeasible_row r)) told }
{
    match told {
        Err(refusal) => Reply::Refused(refusal.number()),
        Ok(PreparedPropagation::Infeasible(passes, moved, row)) => ended(0, passes, moved, row),
        Ok(PreparedPropagation::Converged(passes, moved)) => ended(1, passes, moved, NO_ROW),
        Ok(PreparedPropagation::BudgetSpent(passes, moved)) => ended(2, passes, moved, NO_ROW),
    }
}

// Writes the reply to a probe: after the places of any probe the two rows.
pub fn put_probe<E: Numbered>(told: Result<ProbedSides, E>, answer: &mut [u64]) -> u32
    requires { length answer.old ≡ answer_length }
    ensures number { result ≡ returned
        (numbered_reply E.number (λ r. with_rows (call_reply (prepared_probe_answer r)) (row0_of r) (row1_of r)) told) }
    ensures answer { answer.new ≡ written
        (numbered_reply E.number (λ r. with_rows (call_reply (prepared_probe_answer r)) (row0_of r) (row1_of r)) told)
        answer.old }
{
    match told {
        Err(refusal) => refusal.number(),
        Ok(sides) => {
            put(probe_reply::<E>(Ok(sides.probing)), answer);
            answer[8] = sides.row0 as u64;
            answer[9] = sides.row1 as u64;
            0
        }
    }
}
