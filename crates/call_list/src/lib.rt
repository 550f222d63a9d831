// A call list as records (01's run sheet): the calls that `flat_list` reads from flat numbers, one struct each.
// Reading a record and the loop over them are functions of their own; what a record does is `call_record`'s.
#![tactic(auto)]

ghost use Rattle.std.specs.Prelude.{◌≡◌, ◌<◌, length, get_or};
ghost use Rattle.semantics.specs.CallList.{run_list};
ghost use Rattle.model.specs.Rows.{rows_of};
ghost use Rattle.model.specs.State.{state_of};
ghost use Rattle.demands.specs.TwoLists.{CountsAddUp, Demand3Lists, ListMeans};
ghost use Rattle.demands.specs.TwoRuns.{EveryModelHandedIn};
ghost use Rattle.flat_list.specs.ListAnswers.{list_run};
ghost use Rattle.call_record.specs.Records.{no_call, numbers_of};

use call::{Call, Counts};
use call_record::run_next;
use flat_list::run_none;
use model::refusal::Refusal;

// Record i.
fn record_at(calls: &[Call], i: usize) -> Call
    requires { i < length calls.now }
    ensures { result ≡ get_or calls.now i no_call }
{
    calls[i]
}

// Runs a list of call records in their order. It goes on after a refused call, and writes bounds and table only.
pub fn run(
    n: usize,
    m: usize,
    bounds: &mut [i32],
    coefs: &[i32],
    rhs: &[i32],
    kinds: &[u8],
    table: &mut [u8],
    calls: &[Call],
) -> Result<Counts, Refusal>
    ensures defined { let A = rows_of coefs.now rhs.now kinds.now in
        let s = state_of n m bounds.old A table.old in
        let r' = state_of n m bounds.new A table.new in
        list_run result r' ≡ run_list s (numbers_of calls.now) }
    ensures meaning { let A = rows_of coefs.now rhs.now kinds.now in
        let s = state_of n m bounds.old A table.old in
        let r' = state_of n m bounds.new A table.new in
        ListMeans s (list_run result r') }
    ensures demand3 { EveryModelHandedIn × Demand3Lists }
    ensures sum { CountsAddUp }
{
    let mut answer = run_none(n, m, bounds, coefs, rhs, kinds, table);
    for i in 0..calls.len() {
        let call = record_at(calls, i);
        answer = run_next(n, m, bounds, coefs, rhs, kinds, table, answer, call);
    }
    answer
}

// Runs four records that the caller holds by value, as a list of that length.
pub fn run_four(
    n: usize,
    m: usize,
    bounds: &mut [i32],
    coefs: &[i32],
    rhs: &[i32],
    kinds: &[u8],
    table: &mut [u8],
    calls: [Call; 4],
) -> Result<Counts, Refusal>
    ensures defined { let A = rows_of coefs.now rhs.now kinds.now in
        let s = state_of n m bounds.old A table.old in
        let r' = state_of n m bounds.new A table.new in
        list_run result r' ≡ run_list s (numbers_of calls) }
{
    run(n, m, bounds, coefs, rhs, kinds, table, &calls)
}
