// One call of a list: its own checks, then what its kind asks for, on a model that passed its checks. Each call leaves
// the model valid, so a list of calls checks the model once.
#![tactic(auto)]

ghost use Rattle.std.specs.Prelude.{◌≡◌};
ghost use Rattle.model.specs.Rows.{rows_of};
ghost use Rattle.model.specs.Valid.{ValidState};
ghost use Rattle.semantics.specs.Run.{class_listed, step_listed};
ghost use Rattle.model.specs.State.{state_of};
ghost use Rattle.call.specs.Calls.{call_on};
ghost use Rattle.call.specs.Classes.{class_is};

use call::checks::{check_budget, check_probe_fields, check_row};
use call::{
    Call, CallClass, PROBE, PROPAGATE, PROPAGATE_ROW, REMOVE_ROW, TIGHTEN_COEFFICIENT,
    class_of_propagation, class_of_row,
};
use matrix_row::propagate_row_at;
use model::refusal::Refusal;
use probe_step::run_probe;
use row_passes::propagate;

// One record of a call list: the kind is matched once, and each kind makes its own checks and is then run. 4 and 5,
// which would write a row, are retired from lists, whatever the fields and the box.
pub fn run_record(
    n: usize,
    m: usize,
    bounds: &mut [i32],
    coefs: &[i32],
    rhs: &[i32],
    kinds: &[u8],
    table: &mut [u8],
    call: Call,
) -> CallClass
    requires { ValidState (state_of n m bounds.old (rows_of coefs.now rhs.now kinds.now) table.old) }
    ensures class { let A = rows_of coefs.now rhs.now kinds.now in
        let s = state_of n m bounds.old A table.old in
        class_is result ≡ class_listed s (call_on s call) }
    ensures left { let A = rows_of coefs.now rhs.now kinds.now in
        let s = state_of n m bounds.old A table.old in
        let r' = state_of n m bounds.new A table.new in
        r' ≡ step_listed s (call_on s call) }
{
    let kind = call.kind;
    match kind {
        PROPAGATE_ROW => {
            if let Err(refusal) = check_row(m, call.row) {
                return CallClass::Refused(refusal);
            }
            class_of_row(propagate_row_at(n, coefs, rhs, kinds, call.row as usize, bounds))
        }
        PROPAGATE => {
            if let Err(refusal) = check_budget(call.budget) {
                return CallClass::Refused(refusal);
            }
            class_of_propagation(propagate(n, m, bounds, coefs, rhs, kinds, call.budget))
        }
        PROBE => {
            if let Err(refusal) = check_probe_fields(n, bounds, call.variable, call.budget) {
                return CallClass::Refused(refusal);
            }
            run_probe(
                n,
                m,
                bounds,
                coefs,
                rhs,
                kinds,
                table,
                call.variable,
                call.budget,
            )
        }
        TIGHTEN_COEFFICIENT | REMOVE_ROW => CallClass::Refused(Refusal::RetiredKind),
        _ => CallClass::Refused(Refusal::CallKind),
    }
}
