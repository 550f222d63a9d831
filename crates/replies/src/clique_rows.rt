// What the call that writes the clique rows says.
ghost use Rattle.std.specs.Prelude.{◌≡◌};
ghost use Rattle.clique_call.specs.CliqueAnswers.{cliques_answer};
ghost use Rattle.replies.specs.CliqueReplies.{clique_reply};
ghost use Rattle.replies.specs.Replies.{numbered_reply, reply_of};

use crate::numbered::Numbered;
use crate::reply::Reply;

#[tactic(auto, unfolding(clique_call::specs::CliqueAnswers::cliques_answer, crate::specs::CliqueReplies::clique_reply, crate::specs::Replies::reply_of))]
pub fn cliques_reply<E: Numbered>(a: Result<usize, E>) -> Reply
    ensures { reply_of result ≡ numbered_reply E.number (λ r. clique_reply (cliques_answer r)) a }
{
    match a {
        Err(refusal) => Reply::Refused(refusal.number()),
        Ok(number) => Reply::Numbers(number as u64, 0, 0, 0),
    }
}
