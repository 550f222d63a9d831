// What the calls on pages say.
ghost use Rattle.std.specs.Prelude.{◌≡◌};
ghost use Rattle.page_call.specs.Answers.{count_answer, pages_answer};
ghost use Rattle.replies.specs.PageReplies.{page_reply};
ghost use Rattle.replies.specs.Replies.{numbered_reply, reply_of, returned};

use crate::numbered::Numbered;
use crate::reply::Reply;

#[tactic(auto, unfolding(page_call::specs::Answers::count_answer, crate::specs::PageReplies::page_reply, crate::specs::Replies::reply_of))]
pub fn count_reply<E: Numbered>(a: Result<usize, E>) -> Reply
    ensures { reply_of result ≡ numbered_reply E.number (λ r. page_reply (count_answer r)) a }
{
    match a {
        Err(refusal) => Reply::Refused(refusal.number()),
        Ok(pages) => Reply::Numbers(pages as u64, 0, 0, 0),
    }
}

#[tactic(auto, unfolding(page_call::specs::Answers::pages_answer, crate::specs::PageReplies::page_reply, crate::specs::Replies::returned))]
pub fn pages_number<E: Numbered>(a: Result<(), E>) -> u32
    ensures { result ≡ returned (numbered_reply E.number (λ r. page_reply (pages_answer r)) a) }
{
    match a {
        Err(refusal) => refusal.number(),
        Ok(()) => 0,
    }
}
