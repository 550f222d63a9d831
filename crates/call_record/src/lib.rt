// The records of a call list (01's run sheet), defined, and one of them run: the answer with one record more.
// `call_list` runs a whole list by it.
#![tactic(auto)]

ghost use Rattle.std.specs.Prelude.{◌≡◌};
ghost use Rattle.model.specs.Rows.{rows_of};
ghost use Rattle.model.specs.State.{state_of};
ghost use Rattle.flat_list.specs.ListAnswers.{list_run};
ghost use Rattle.call_record.specs.Records.{Runs, run_next};

use call::{Call, Counts, count};
use model::refusal::Refusal;
use step::run_record;

// The answer with one record more. A list that is refused stays refused.
pub fn run_next<'a>(
    n: usize,
    m: usize,
    bounds: &'a mut [i32],
    coefs: &[i32],
    rhs: &[i32],
    kinds: &[u8],
    table: &'a mut [u8],
    answer: Result<Counts, Refusal>,
    call: Call,
) -> Result<Counts, Refusal>
    requires { let s = state_of n m bounds.old (rows_of coefs.now rhs.now kinds.now) table.old in
        Runs (list_run answer s) }
    ensures { let A = rows_of coefs.now rhs.now kinds.now in
        let s = state_of n m bounds.old A table.old in
        let r' = state_of n m bounds.new A table.new in
        list_run result r' ≡ run_next (list_run answer s) call }
{
    let counts = answer?;
    let class = run_record(n, m, bounds, coefs, rhs, kinds, table, call);
    Ok(count(counts, class))
}
