// The reply to each answer of the six calls, of a list, of the rounds and of a book.
#![tactic(auto)]

ghost use Rattle.std.specs.Prelude.{◌≡◌};
ghost use Rattle.book.specs.Answers.{sizes_answer};
ghost use Rattle.flat_list.specs.ListAnswers.{list_answer};
ghost use Rattle.reducer.specs.OpenCalls.{probe_answer, propagate_answer, remove_answer, rest_verdict, row_answer};
ghost use Rattle.reducer.specs.OpenCalls.{tighten_answer};
ghost use Rattle.rounds.specs.Answers.{rounds_answer};
ghost use Rattle.replies.specs.declared.reply.Reply.TheVariants.{Numbers};
ghost use Rattle.replies.specs.Replies.{bit as bit_of, book_reply, call_reply, list_reply, numbered_reply, reply_of};
ghost use Rattle.replies.specs.Replies.{rest_reply, rounds_reply};

use book::Sizes;
use call::Counts;
use propagation::Propagation;
use replies::numbered::Numbered;
use replies::reply::{Reply, bit};
use rest::Rest;
use rounds::RoundsMade;
use row::propagation::RowPropagation;
use row::redundancy::RowRemoval;
use row::tightening::CoefficientTightening;
use two_sides::Probing;

#[tactic(auto, unfolding(replies::specs::Replies::call_reply, replies::specs::Replies::outcome_case, replies::specs::Replies::reply_of, reducer::specs::OpenCalls::row_answer))]
pub fn row_reply<E: Numbered>(a: Result<RowPropagation, E>) -> Reply
    ensures { reply_of result ≡ numbered_reply E.number (λ r. call_reply (row_answer r)) a }
{
    match a {
        Ok(RowPropagation::Infeasible) => Reply::Numbers(0, 0, 0, 0),
        Ok(RowPropagation::Tightened(moved)) => Reply::Numbers(1, moved as u64, 0, 0),
        Ok(RowPropagation::Unchanged) => Reply::Numbers(2, 0, 0, 0),
        Err(refusal) => Reply::Refused(refusal.number()),
    }
}

fn propagated(case: u64, passes: u32, moved: u32) -> Reply
    ensures { result ≡ Numbers case passes moved 0 }
{
    Reply::Numbers(case, passes as u64, moved as u64, 0)
}

#[tactic(auto, unfolding(replies::specs::Replies::call_reply, replies::specs::Replies::ending_case, replies::specs::Replies::reply_of, reducer::specs::OpenCalls::propagate_answer))]
pub fn propagate_reply<E: Numbered>(a: Result<Propagation, E>) -> Reply
    ensures { reply_of result ≡ numbered_reply E.number (λ r. call_reply (propagate_answer r)) a }
{
    match a {
        Err(refusal) => Reply::Refused(refusal.number()),
        Ok(Propagation::Infeasible(passes, moved)) => propagated(0, passes, moved),
        Ok(Propagation::Converged(passes, moved)) => propagated(1, passes, moved),
        Ok(Propagation::BudgetSpent(passes, moved)) => propagated(2, passes, moved),
    }
}

#[tactic(auto, unfolding(replies::specs::Replies::call_reply, replies::specs::Replies::probe_ended, replies::specs::Replies::reply_of, reducer::specs::OpenCalls::probe_answer))]
pub fn probe_reply<E: Numbered>(a: Result<Probing, E>) -> Reply
    ensures { reply_of result ≡ numbered_reply E.number (λ r. call_reply (probe_answer r)) a }
{
    match a {
        Err(refusal) => Reply::Refused(refusal.number()),
        Ok(Probing::Infeasible(side0, side1)) => Reply::Probed(0, 0, side0, side1),
        Ok(Probing::Fixed(value, side0, side1)) => Reply::Probed(1, value, side0, side1),
        Ok(Probing::BothFeasible(added, side0, side1)) => Reply::Probed(2, added, side0, side1),
    }
}

#[tactic(auto, unfolding(replies::specs::Replies::call_reply, replies::specs::Replies::outcome_case, replies::specs::Replies::reply_of, reducer::specs::OpenCalls::tighten_answer))]
pub fn tighten_reply<E: Numbered>(a: Result<CoefficientTightening, E>) -> Reply
    ensures { reply_of result ≡ numbered_reply E.number (λ r. call_reply (tighten_answer r)) a }
{
    match a {
        Err(refusal) => Reply::Refused(refusal.number()),
        Ok(CoefficientTightening::Infeasible) => Reply::Numbers(0, 0, 0, 0),
        Ok(CoefficientTightening::Tightened) => Reply::Numbers(1, 0, 0, 0),
        Ok(CoefficientTightening::Unchanged) => Reply::Numbers(2, 0, 0, 0),
    }
}

#[tactic(auto, unfolding(replies::specs::Replies::call_reply, replies::specs::Replies::outcome_case, replies::specs::Replies::reply_of, reducer::specs::OpenCalls::remove_answer))]
pub fn remove_reply<E: Numbered>(a: Result<RowRemoval, E>) -> Reply
    ensures { reply_of result ≡ numbered_reply E.number (λ r. call_reply (remove_answer r)) a }
{
    match a {
        Err(refusal) => Reply::Refused(refusal.number()),
        Ok(RowRemoval::Infeasible) => Reply::Numbers(0, 0, 0, 0),
        Ok(RowRemoval::Removed) => Reply::Numbers(1, 0, 0, 0),
        Ok(RowRemoval::Unchanged) => Reply::Numbers(2, 0, 0, 0),
    }
}

#[tactic(auto, unfolding(replies::specs::Replies::rest_reply, replies::specs::Replies::reply_of, reducer::specs::OpenCalls::rest_verdict))]
pub fn rest_reply<E: Numbered>(a: Result<Rest, E>) -> Reply
    ensures { reply_of result ≡ numbered_reply E.number (λ r. rest_reply (rest_verdict r)) a }
{
    match a {
        Err(refusal) => Reply::Refused(refusal.number()),
        Ok(Rest::AtRest) => Reply::Numbers(1, 0, 0, 0),
        Ok(Rest::ByRow(r)) => Reply::Numbers(0, 0, r as u64, 0),
        Ok(Rest::ByVariable(k)) => Reply::Numbers(0, 1, k as u64, 0),
    }
}

#[tactic(auto, unfolding(replies::specs::Replies::list_reply, replies::specs::Replies::reply_of, flat_list::specs::ListAnswers::list_answer, call::specs::Classes::counts_of))]
pub fn run_reply<E: Numbered>(a: Result<Counts, E>) -> Reply
    ensures { reply_of result ≡ numbered_reply E.number (λ r. list_reply (list_answer r)) a }
{
    match a {
        Err(refusal) => Reply::Refused(refusal.number()),
        Ok(counts) => Reply::Numbers(
            counts.refused as u64,
            counts.infeasible as u64,
            counts.changed as u64,
            counts.unchanged as u64,
        ),
    }
}

fn ended(case: u64, made: u64, spent: bool) -> Reply
    ensures { result ≡ Numbers case made (bit_of spent) 0 }
{
    Reply::Numbers(case, made, bit(spent), 0)
}

#[tactic(auto, unfolding(replies::specs::Replies::rounds_reply, replies::specs::Replies::rounds_case, replies::specs::Replies::reply_of, rounds::specs::Answers::rounds_answer))]
pub fn rounds_reply<E: Numbered>(a: Result<RoundsMade, E>) -> Reply
    ensures { reply_of result ≡ numbered_reply E.number (λ r. rounds_reply (rounds_answer r)) a }
{
    match a {
        Err(refusal) => Reply::Refused(refusal.number()),
        Ok(RoundsMade::Infeasible(made, spent)) => ended(0, made, spent),
        Ok(RoundsMade::NothingChanged(made, spent)) => ended(1, made, spent),
        Ok(RoundsMade::AtLimit(made, spent)) => ended(2, made, spent),
    }
}

#[tactic(auto, unfolding(replies::specs::Replies::book_reply, replies::specs::Replies::reply_of, book::specs::Answers::sizes_answer))]
pub fn sizes_reply<E: Numbered>(a: Result<Sizes, E>) -> Reply
    ensures { reply_of result ≡ numbered_reply E.number (λ r. book_reply (sizes_answer r)) a }
{
    match a {
        Err(refusal) => Reply::Refused(refusal.number()),
        Ok(sizes) => Reply::Numbers(sizes.n as u64, sizes.m as u64, 0, 0),
    }
}
