// Call lists (01's run sheet): many calls on one model. The model and the table are checked once, before the first
// record; each call leaves them valid, so only a record's own checks are made after that (`records`).
#![tactic(auto)]

ghost use Rattle.std.specs.Prelude.{[], ◌≡◌};
ghost use Rattle.semantics.specs.CallList.{ran, run_list};
ghost use Rattle.model.specs.Rows.{rows_of};
ghost use Rattle.model.specs.State.{state_of};
ghost use Rattle.semantics.specs.Run as lists;
ghost use Rattle.demands.specs.TwoLists.{CountsAddUp, Demand3Lists, ListMeans};
ghost use Rattle.demands.specs.TwoRuns.{EveryModelHandedIn};
ghost use Rattle.flat_record.specs.Classes.{ClassesCounted, run_classes};
ghost use Rattle.flat_list.specs.ListAnswers.{classes_run, list_answer, list_run};

use call::Counts;
use flat_record::{check_classes, check_list};
use model::refusal::Refusal;
use records::run_records;

mod records;

// Runs a flat list of call records, four numbers each: kind, row, variable, budget. Refused as a whole, or the four
// counts. It goes on after a refused call. A
// list writes bounds and table only: kinds 4 and 5 are retired, and the rows are lent read-only. `meaning`: what the
// whole list means for the points and the table. `demand3` and `sum` hold of any lists, so that a caller can take them
// from here.
pub fn run(
    n: usize,
    m: usize,
    bounds: &mut [i32],
    coefs: &[i32],
    rhs: &[i32],
    kinds: &[u8],
    table: &mut [u8],
    calls: &[u32],
) -> Result<Counts, Refusal>
    ensures defined { let A = rows_of coefs.now rhs.now kinds.now in
        let s = state_of n m bounds.old A table.old in
        let r' = state_of n m bounds.new A table.new in
        list_run result r' ≡ run_list s calls.now }
    ensures meaning { let A = rows_of coefs.now rhs.now kinds.now in
        let s = state_of n m bounds.old A table.old in
        let r' = state_of n m bounds.new A table.new in
        ListMeans s (list_run result r') }
    ensures demand3 { EveryModelHandedIn × Demand3Lists }
    ensures sum { CountsAddUp }
{
    check_list(n, m, bounds, coefs, rhs, kinds, table, calls)?;
    let mut none: [u8; 0] = [];
    Ok(run_records(n, m, bounds, coefs, rhs, kinds, table, calls, &mut none))
}

// Runs the list of no record: the model and the table are checked. It is the answer before the first record.
pub fn run_none<'a>(
    n: usize,
    m: usize,
    bounds: &'a mut [i32],
    coefs: &[i32],
    rhs: &[i32],
    kinds: &[u8],
    table: &'a mut [u8],
) -> Result<Counts, Refusal>
    ensures { let A = rows_of coefs.now rhs.now kinds.now in
        let s = state_of n m bounds.old A table.old in
        let r' = state_of n m bounds.new A table.new in
        list_run result r' ≡ run_list s [] }
{
    let none: [u32; 0] = [];
    run(n, m, bounds, coefs, rhs, kinds, table, &none)
}

// Runs a list as `run` does, and tells what each record did: a byte a record, 0 refused, 1 infeasible, 2 changed, 3
// unchanged. `counted`: the four counts are the counts of these bytes.
pub fn run_classes(
    n: usize,
    m: usize,
    bounds: &mut [i32],
    coefs: &[i32],
    rhs: &[i32],
    kinds: &[u8],
    table: &mut [u8],
    calls: &[u32],
    classes: &mut [u8],
) -> Result<Counts, Refusal>
    ensures defined { let A = rows_of coefs.now rhs.now kinds.now in
        let s = state_of n m bounds.old A table.old in
        let r' = state_of n m bounds.new A table.new in
        classes_run result r' classes.new ≡ run_classes s calls.now classes.old }
    ensures meaning { let A = rows_of coefs.now rhs.now kinds.now in
        let s = state_of n m bounds.old A table.old in
        let r' = state_of n m bounds.new A table.new in
        ListMeans s (list_run result r') }
    ensures counted { (k : lists.Counts) → list_answer result ≡ ran k → ClassesCounted k classes.new }
{
    check_classes(n, m, bounds, coefs, rhs, kinds, table, calls, classes)?;
    Ok(run_records(n, m, bounds, coefs, rhs, kinds, table, calls, classes))
}
