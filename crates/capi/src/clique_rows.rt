// The clique rows of a table (02, C-12).
ghost use Rattle.std.specs.Prelude.{◌≡◌};
ghost use Rattle.exports.specs.CliqueExports.{cliques_export, cliques_exported};

use clique_call::call::cliques;
use replies::clique_rows::cliques_reply;
use replies::reply::{ANSWER, answer_fault, put};

// Writes the clique rows into a list of 2n rows, `coefs` and `rhs`, and zeros after them: {number}. Refused by 3, 5,
// 10.
#[unsafe(no_mangle)]
pub extern "C" fn astrolabe_cliques(
    n: usize,
    table: &[u8],
    coefs: &mut [i32],
    rhs: &mut [i32],
    answer: &mut [u64],
) -> u32
    ensures { let A = answer.old in
        let export = cliques_export A n table.now coefs.old rhs.old in
        cliques_exported result answer.new coefs.new rhs.new ≡ export }
{
    if answer.len() != ANSWER {
        return answer_fault(n, 0);
    }
    put(cliques_reply(cliques(n, table, coefs, rhs)), answer)
}
