// The records of a list that is run, one after the other, and what each did.
ghost use Rattle.std.specs.Prelude.{◌≡◌, ◌/◌, ◌<◌, ◌≤◌, length, take};
ghost use Rattle.model.specs.Rows.{rows_of};
ghost use Rattle.model.specs.State.{state_of};
ghost use Rattle.semantics.specs.CallList.{list_fault, run_list};
ghost use Rattle.flat_record.specs.Classes.{classes_of};
ghost use Rattle.flat_list.specs.ListAnswers.{ran_to};

use call::{Counts, count};
use flat_record::{record_at, tell};
use step::run_record;

// Runs the records of a list that passed its checks, and goes on after a refused call. The classes of as many records
// are told as bytes are lent for them: of all, or, where the counts are enough, of none.
pub fn run_records(
    n: usize,
    m: usize,
    bounds: &mut [i32],
    coefs: &[i32],
    rhs: &[i32],
    kinds: &[u8],
    table: &mut [u8],
    calls: &[u32],
    classes: &mut [u8],
) -> Counts
    requires calls_value { let s = state_of n m bounds.old (rows_of coefs.now rhs.now kinds.now) table.old in
        list_fault s calls.now ≡ 0 }
    requires classes_in_bounds { length classes.old ≤ length calls.now / 4 }
    ensures defined { let A = rows_of coefs.now rhs.now kinds.now in
        let s = state_of n m bounds.old A table.old in
        let r' = state_of n m bounds.new A table.new in
        ran_to result r' ≡ run_list s calls.now }
    ensures told { let A = rows_of coefs.now rhs.now kinds.now in
        let s = state_of n m bounds.old A table.old in
        let C = classes.old in
        classes.new ≡ take (length C) (classes_of s calls.now) }
{
    let mut counts = Counts {
        refused: 0,
        infeasible: 0,
        changed: 0,
        unchanged: 0,
    };
    for i in 0..calls.len() / 4 {
        let call = record_at(calls, i);
        let class = run_record(n, m, bounds, coefs, rhs, kinds, table, call);
        counts = count(counts, class);
        tell(classes, i, class);
    }
    counts
}
