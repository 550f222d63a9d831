// The call that ties two variables. Of what it is lent it writes rows and the tie list.
ghost use Rattle.std.specs.Prelude.{◌≡◌};
ghost use Rattle.model.specs.Rows.{rows_of};
ghost use Rattle.model.specs.State.{state_of};
ghost use Rattle.ties.specs.Ties.{tied_state_of};
ghost use Rattle.exports.specs.Exports.{exported, tie_export, ties_export};

use replies::reply::{ANSWER, answer_fault, put};
use replies::tied::tie_reply;
use tie_call::tie;

// Ties j to k (02, C-19): {1 Tied | 2 Same}. Refused by the model's checks, then by 10, 21 and 13, of k before j.
#[unsafe(no_mangle)]
pub extern "C" fn astrolabe_tie(
    n: usize,
    m: usize,
    bounds: &[i32],
    coefs: &mut [i32],
    rhs: &mut [i32],
    kinds: &[u8],
    table: &[u8],
    ties: &mut [u16],
    k: u32,
    j: u32,
    answer: &mut [u64],
) -> u32
    ensures answered { let A = rows_of coefs.old rhs.old kinds.now in
        let A' = rows_of coefs.new rhs.new kinds.now in
        let s = tied_state_of n m bounds.now A table.now ties.old in
        let r' = state_of n m bounds.now A' table.now in
        exported result answer.new r' ≡ tie_export answer.old s k j }
    ensures ties_left { let A = rows_of coefs.old rhs.old kinds.now in
        let s = tied_state_of n m bounds.now A table.now ties.old in
        ties.new ≡ ties_export answer.old s k j }
{
    if answer.len() != ANSWER {
        return answer_fault(n, m);
    }
    put(
        tie_reply(tie(n, m, bounds, coefs, rhs, kinds, table, ties, k, j)),
        answer,
    )
}
