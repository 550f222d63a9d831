// The rest call as C is told of it: behind one check more, of the answer's length, and with the answer written into
// its places.
#![tactic(auto)]

ghost use Rattle.std.specs.Prelude.{[], ◌≡◌};
ghost use Rattle.exports.specs.Exports.{exported, rest_export};
ghost use Rattle.model.specs.Rows.{rows_of};
ghost use Rattle.model.specs.State.{state_of};

use call_replies::rest_reply;
use replies::reply::{ANSWER, answer_fault, put};
use rest_call::is_probing_fixpoint;

// What C is told by `astrolabe_is_probing_fixpoint`.
pub fn rest_said(
    n: usize,
    m: usize,
    bounds: &[i32],
    coefs: &[i32],
    rhs: &[i32],
    kinds: &[u8],
    answer: &mut [u64],
) -> u32
    ensures { let A = rows_of coefs.now rhs.now kinds.now in
        let s = state_of n m bounds.now A [] in
        exported result answer.new s ≡ rest_export answer.old s }
{
    if answer.len() != ANSWER {
        return answer_fault(n, m);
    }
    put(
        rest_reply(is_probing_fixpoint(n, m, bounds, coefs, rhs, kinds)),
        answer,
    )
}
