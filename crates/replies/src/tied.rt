// What the call that ties two variables says.
ghost use Rattle.std.specs.Prelude.{◌≡◌};
ghost use Rattle.tie_call.specs.TieAnswers.{tie_answer};
ghost use Rattle.replies.specs.Replies.{numbered_reply, reply_of, tie_reply};

use crate::numbered::Numbered;
use crate::reply::Reply;
use tie_call::TieMade;

#[tactic(auto, unfolding(tie_call::specs::TieAnswers::tie_answer, crate::specs::Replies::tie_reply, crate::specs::Replies::reply_of))]
pub fn tie_reply<E: Numbered>(a: Result<TieMade, E>) -> Reply
    ensures { reply_of result ≡ numbered_reply E.number (λ r. tie_reply (tie_answer r)) a }
{
    match a {
        Err(refusal) => Reply::Refused(refusal.number()),
        Ok(TieMade::Tied) => Reply::Numbers(1, 0, 0, 0),
        Ok(TieMade::Unchanged) => Reply::Numbers(2, 0, 0, 0),
    }
}
