// One record of a flat call list (01's run sheet), four numbers: read, and what it did told as a byte (D-67), which is
// defined here; and the checks of a list. `flat_list` runs the records.
#![tactic(auto)]

ghost use Rattle.std.specs.Prelude.{◌≡◌, ◌/◌, ◌<◌, length, set};
ghost use Rattle.call.specs.Calls.{call_on};
ghost use Rattle.call.specs.Classes.{class_is};
ghost use Rattle.model.specs.Refusals.{fault_of};
ghost use Rattle.model.specs.Rows.{rows_of};
ghost use Rattle.model.specs.State.{State, state_of};
ghost use Rattle.semantics.specs.CallList.{list_fault, record_at};
ghost use Rattle.flat_record.specs.Classes.{class_byte, classes_fault};

use buffer_checks::is_product;
use call::{Call, CallClass};
use model::refusal::Refusal;
use model_checks::check_model_with_table;

// The bytes of the classes: the places of their counts in the answer.
const REFUSED: u8 = 0;

const INFEASIBLE: u8 = 1;

const CHANGED: u8 = 2;

const UNCHANGED: u8 = 3;

fn class_byte(class: CallClass) -> u8
    ensures { result ≡ class_byte (class_is class) }
{
    match class {
        CallClass::Refused(_) => REFUSED,
        CallClass::Infeasible => INFEASIBLE,
        CallClass::Changed => CHANGED,
        CallClass::Unchanged => UNCHANGED,
    }
}

// Tells the class of record i, where a byte is lent for it.
pub fn tell(classes: &mut [u8], i: usize, class: CallClass)
    ensures { classes.new ≡ set classes.old i (class_byte (class_is class)) }
{
    if i < classes.len() {
        classes[i] = class_byte(class);
    }
}

// Record i: kind, row, variable, budget.
pub fn record_at(calls: &[u32], i: usize) -> Call
    requires { i < length calls.now / 4 }
    ensures { (s : State) → call_on s result ≡ record_at s calls.now i }
{
    let kind = calls[4 * i];
    let row = calls[4 * i + 1];
    let variable = calls[4 * i + 2];
    let budget = calls[4 * i + 3];
    Call {
        kind,
        row,
        variable,
        budget,
    }
}

// The number by which a list is refused as a whole, 0 where it is run: the model's checks, 5 of its own length too, and
// 10.
pub fn check_list(
    n: usize,
    m: usize,
    bounds: &[i32],
    coefs: &[i32],
    rhs: &[i32],
    kinds: &[u8],
    table: &[u8],
    calls: &[u32],
) -> Result<(), Refusal>
    ensures { let A = rows_of coefs.now rhs.now kinds.now in
        let s = state_of n m bounds.now A table.now in
        fault_of result ≡ list_fault s calls.now }
{
    check_model_with_table(n, m, bounds, coefs, rhs, kinds, table, calls.len() % 4 == 0)
}

// As `list_fault`; by 5 too where not a byte is lent for each record of four numbers.
pub fn check_classes(
    n: usize,
    m: usize,
    bounds: &[i32],
    coefs: &[i32],
    rhs: &[i32],
    kinds: &[u8],
    table: &[u8],
    calls: &[u32],
    classes: &[u8],
) -> Result<(), Refusal>
    ensures { let A = rows_of coefs.now rhs.now kinds.now in
        let s = state_of n m bounds.now A table.now in
        fault_of result ≡ classes_fault s calls.now classes.now }
{
    let fits = is_product(calls.len(), 4, classes.len());
    check_model_with_table(n, m, bounds, coefs, rhs, kinds, table, fits)
}
