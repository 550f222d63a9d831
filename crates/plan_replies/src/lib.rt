// What the calls that tell size and passes beforehand say.
#![tactic(auto)]

ghost use Rattle.std.specs.Prelude.{◌≡◌, length};
ghost use Rattle.plan.specs.Answers.{lengths_answer, passes_answer, width_answer};
ghost use Rattle.plan.specs.Lengths.{lengths_of};
ghost use Rattle.replies.specs.Replies.{answer_length, lengths_reply, numbered_reply, plan_reply, reply_of};
ghost use Rattle.replies.specs.Replies.{returned, written};

use plan::{BoxBudget, BufferLengths, PassLimit};
use replies::numbered::Numbered;
use replies::reply::{Reply, clear};

pub fn width_reply<E: Numbered>(a: Result<BoxBudget, E>) -> Reply
    ensures { reply_of result ≡ numbered_reply E.number (λ r. plan_reply (width_answer r)) a }
{
    match a {
        Err(refusal) => Reply::Refused(refusal.number()),
        Ok(told) => Reply::Numbers(told.width as u64, told.budget as u64, 0, 0),
    }
}

pub fn passes_reply<E: Numbered>(a: Result<PassLimit, E>) -> Reply
    ensures { reply_of result ≡ numbered_reply E.number (λ r. plan_reply (passes_answer r)) a }
{
    match a {
        Err(refusal) => Reply::Refused(refusal.number()),
        Ok(most) => Reply::Numbers(most.width as u64, most.budget as u64, most.passes, 0),
    }
}

// The eleven lengths, from place 0 on.
fn put_lengths(l: BufferLengths, answer: &mut [u64])
    requires { length answer.old ≡ answer_length }
    ensures { answer.new ≡ written (lengths_reply (lengths_of l)) answer.old }
{
    clear(answer);
    answer[0] = l.n as u64;
    answer[1] = l.m as u64;
    answer[2] = l.bounds as u64;
    answer[3] = l.coefs as u64;
    answer[4] = l.rhs as u64;
    answer[5] = l.kinds as u64;
    answer[6] = l.table as u64;
    answer[7] = l.ties as u64;
    answer[8] = l.clique_coefs as u64;
    answer[9] = l.clique_rhs as u64;
    answer[10] = l.book as u64;
}

// Writes the answer of the call on a trailer: as `put` does, but for more numbers than a `Reply` holds.
pub fn put_plan<E: Numbered>(a: Result<BufferLengths, E>, answer: &mut [u64]) -> u32
    requires { length answer.old ≡ answer_length }
    ensures number { result ≡ returned (numbered_reply E.number (λ r. plan_reply (lengths_answer r)) a) }
    ensures answer { answer.new ≡ written (numbered_reply E.number (λ r. plan_reply (lengths_answer r)) a) answer.old }
{
    match a {
        Err(refusal) => refusal.number(),
        Ok(lengths) => {
            put_lengths(lengths, answer);
            0
        }
    }
}
