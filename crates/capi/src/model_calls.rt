// The calls on a model in memory. Every call is refused by the model's checks first, 3, 5, 6, 7, 23, 8, 9 and 16, and
// then by those that its own comment names. Only removing a row, a list and the rounds write kinds.
ghost use Rattle.std.specs.Prelude.{[], ◌≡◌};
ghost use Rattle.model.specs.Rows.{rows_of};
ghost use Rattle.model.specs.State.{state_of};
ghost use Rattle.exports.specs.Exports.{call_export, classes_export, classes_left, exported, list_export, rest_export};
ghost use Rattle.exports.specs.Exports.{rounds_export};

use call_replies::{
    probe_reply, propagate_reply, remove_reply, rounds_reply, row_reply, run_reply, tighten_reply,
};
use change_call::{remove_redundant_row, tighten_coefficient};
use flat_list::run_classes;
use probe_call::probe;
use reducer::calls::{propagate, propagate_row};
use replies::reply::{ANSWER, answer_fault, put};
use rest_exports::rest_said;

// 01's visit: {0 None | 1 Narrowed | 2 Same, moved}. Refused by 12.
#[unsafe(no_mangle)]
pub extern "C" fn astrolabe_propagate_row(
    n: usize,
    m: usize,
    bounds: &mut [i32],
    coefs: &[i32],
    rhs: &[i32],
    kinds: &[u8],
    row: u32,
    answer: &mut [u64],
) -> u32
    ensures { let A = rows_of coefs.now rhs.now kinds.now in
        let s = state_of n m bounds.old A [] in
        let r' = state_of n m bounds.new A [] in
        exported result answer.new r' ≡ call_export answer.old s 1 row 0 0 }
{
    if answer.len() != ANSWER {
        return answer_fault(n, m);
    }
    put(
        row_reply(propagate_row(n, m, bounds, coefs, rhs, kinds, row)),
        answer,
    )
}

// 01's settle: {0 None | 1 Settled | 2 Spent, passes, moved}. Refused by 15.
#[unsafe(no_mangle)]
pub extern "C" fn astrolabe_propagate(
    n: usize,
    m: usize,
    bounds: &mut [i32],
    coefs: &[i32],
    rhs: &[i32],
    kinds: &[u8],
    budget: u32,
    answer: &mut [u64],
) -> u32
    ensures { let A = rows_of coefs.now rhs.now kinds.now in
        let s = state_of n m bounds.old A [] in
        let r' = state_of n m bounds.new A [] in
        exported result answer.new r' ≡ call_export answer.old s 2 0 0 budget }
{
    if answer.len() != ANSWER {
        return answer_fault(n, m);
    }
    put(
        propagate_reply(propagate(n, m, bounds, coefs, rhs, kinds, budget)),
        answer,
    )
}

// 01's probe: {0 None | 1 Fixed | 2 Both, v or new bytes, passes0, spent0, moved0, passes1, spent1, moved1}. Refused
// by 10, 13 to 15.
#[unsafe(no_mangle)]
pub extern "C" fn astrolabe_probe(
    n: usize,
    m: usize,
    bounds: &mut [i32],
    coefs: &[i32],
    rhs: &[i32],
    kinds: &[u8],
    table: &mut [u8],
    variable: u32,
    budget: u32,
    answer: &mut [u64],
) -> u32
    ensures { let A = rows_of coefs.now rhs.now kinds.now in
        let s = state_of n m bounds.old A table.old in
        let r' = state_of n m bounds.new A table.new in
        exported result answer.new r' ≡ call_export answer.old s 3 0 variable budget }
{
    if answer.len() != ANSWER {
        return answer_fault(n, m);
    }
    put(
        probe_reply(probe(n, m, bounds, coefs, rhs, kinds, table, variable, budget)),
        answer,
    )
}

// 01's sharpen: {0 None | 1 Sharpened | 2 Same}. Refused by 12 to 14.
#[unsafe(no_mangle)]
pub extern "C" fn astrolabe_tighten_coefficient(
    n: usize,
    m: usize,
    bounds: &[i32],
    coefs: &mut [i32],
    rhs: &mut [i32],
    kinds: &[u8],
    row: u32,
    variable: u32,
    answer: &mut [u64],
) -> u32
    ensures { let A = rows_of coefs.old rhs.old kinds.now in
        let A' = rows_of coefs.new rhs.new kinds.now in
        let s = state_of n m bounds.now A [] in
        let r' = state_of n m bounds.now A' [] in
        exported result answer.new r' ≡ call_export answer.old s 4 row variable 0 }
{
    if answer.len() != ANSWER {
        return answer_fault(n, m);
    }
    put(
        tighten_reply(tighten_coefficient(n, m, bounds, coefs, rhs, kinds, row, variable)),
        answer,
    )
}

// 01's drop: {0 None | 1 Dropped | 2 Same}. Refused by 12.
#[unsafe(no_mangle)]
pub extern "C" fn astrolabe_remove_redundant_row(
    n: usize,
    m: usize,
    bounds: &[i32],
    coefs: &mut [i32],
    rhs: &mut [i32],
    kinds: &mut [u8],
    row: u32,
    answer: &mut [u64],
) -> u32
    ensures { let A = rows_of coefs.old rhs.old kinds.old in
        let A' = rows_of coefs.new rhs.new kinds.new in
        let s = state_of n m bounds.now A [] in
        let r' = state_of n m bounds.now A' [] in
        exported result answer.new r' ≡ call_export answer.old s 5 row 0 0 }
{
    if answer.len() != ANSWER {
        return answer_fault(n, m);
    }
    put(
        remove_reply(remove_redundant_row(n, m, bounds, coefs, rhs, kinds, row)),
        answer,
    )
}

// 01's rest call: {1 yes}, or a no with what was found: {0 no, 0 row | 1 variable, its number}.
#[unsafe(no_mangle)]
pub extern "C" fn astrolabe_is_probing_fixpoint(
    n: usize,
    m: usize,
    bounds: &[i32],
    coefs: &[i32],
    rhs: &[i32],
    kinds: &[u8],
    answer: &mut [u64],
) -> u32
    ensures { let A = rows_of coefs.now rhs.now kinds.now in
        let s = state_of n m bounds.now A [] in
        exported result answer.new s ≡ rest_export answer.old s }
{
    rest_said(n, m, bounds, coefs, rhs, kinds, answer)
}

// 01's run sheet, four numbers to a record: {refused, none, changed, unchanged}. Refused as a whole by 10. It writes
// bounds and table only: a record of kind 4 or 5 is refused by 18.
#[unsafe(no_mangle)]
pub extern "C" fn astrolabe_run(
    n: usize,
    m: usize,
    bounds: &mut [i32],
    coefs: &[i32],
    rhs: &[i32],
    kinds: &[u8],
    table: &mut [u8],
    calls: &[u32],
    answer: &mut [u64],
) -> u32
    ensures { let A = rows_of coefs.now rhs.now kinds.now in
        let s = state_of n m bounds.old A table.old in
        let r' = state_of n m bounds.new A table.new in
        exported result answer.new r' ≡ list_export answer.old s calls.now }
{
    if answer.len() != ANSWER {
        return answer_fault(n, m);
    }
    put(
        run_reply(flat_list::run(n, m, bounds, coefs, rhs, kinds, table, calls)),
        answer,
    )
}

// As `astrolabe_run`; and a byte for each record says what it did: 0 refused, 1 none, 2 changed, 3 unchanged. Refused
// by 5 where the bytes are not as many as the records.
#[unsafe(no_mangle)]
pub extern "C" fn astrolabe_run_classes(
    n: usize,
    m: usize,
    bounds: &mut [i32],
    coefs: &[i32],
    rhs: &[i32],
    kinds: &[u8],
    table: &mut [u8],
    calls: &[u32],
    classes: &mut [u8],
    answer: &mut [u64],
) -> u32
    ensures answered { let A = rows_of coefs.now rhs.now kinds.now in
        let s = state_of n m bounds.old A table.old in
        let r' = state_of n m bounds.new A table.new in
        let C = classes.old in
        exported result answer.new r' ≡ classes_export answer.old s calls.now C }
    ensures classes_left { let A = rows_of coefs.now rhs.now kinds.now in
        let s = state_of n m bounds.old A table.old in
        let C = classes.old in
        classes.new ≡ classes_left answer.old s calls.now C }
{
    if answer.len() != ANSWER {
        return answer_fault(n, m);
    }
    put(
        run_reply(run_classes(n, m, bounds, coefs, rhs, kinds, table, calls, classes)),
        answer,
    )
}

// The rounds of `reduce`: {0 None | 1 nothing changed | 2 at the limit, rounds}. Refused by 10.
#[unsafe(no_mangle)]
pub extern "C" fn astrolabe_rounds(
    n: usize,
    m: usize,
    bounds: &mut [i32],
    coefs: &mut [i32],
    rhs: &mut [i32],
    kinds: &mut [u8],
    table: &mut [u8],
    limit: u64,
    answer: &mut [u64],
) -> u32
    ensures { let A = rows_of coefs.old rhs.old kinds.old in
        let A' = rows_of coefs.new rhs.new kinds.new in
        let s = state_of n m bounds.old A table.old in
        let r' = state_of n m bounds.new A' table.new in
        exported result answer.new r' ≡ rounds_export answer.old s limit }
{
    if answer.len() != ANSWER {
        return answer_fault(n, m);
    }
    put(
        rounds_reply(rounds_call::run(n, m, bounds, coefs, rhs, kinds, table, limit)),
        answer,
    )
}
