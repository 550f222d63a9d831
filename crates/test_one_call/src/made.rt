// One open call by value, and what it did.
use call::{Call, PROBE, PROPAGATE, PROPAGATE_ROW, REMOVE_ROW, TIGHTEN_COEFFICIENT};
use change_call::{remove_redundant_row, tighten_coefficient};
use model::refusal::Refusal;
use probe_call::probe;
use propagation::Propagation;
use reducer::calls::{propagate, propagate_row};
use rest::Rest;
use rest_call::is_probing_fixpoint;
use row::propagation::RowPropagation;
use row::redundancy::RowRemoval;
use row::tightening::CoefficientTightening;
use two_sides::Probing;

// What a call did, whichever it is.
#[derive(Clone, Copy)]
pub enum Done {
    PropagatedRow(RowPropagation),
    Propagated(Propagation),
    Probed(Probing),
    Tightened(CoefficientTightening),
    Removed(RowRemoval),
    Rested(Rest),
}

// Makes a call that leaves the rows. Every kind that is none of a record is the rest call here.
fn make_on_box(
    n: usize,
    m: usize,
    bounds: &mut [i32],
    coefs: &[i32],
    rhs: &[i32],
    kinds: &[u8],
    table: &mut [u8],
    call: Call,
) -> Result<Done, Refusal> {
    let Call {
        kind,
        row,
        variable,
        budget,
    } = call;
    match kind {
        PROPAGATE_ROW => {
            propagate_row(n, m, bounds, coefs, rhs, kinds, row).map(Done::PropagatedRow)
        }
        PROPAGATE => propagate(n, m, bounds, coefs, rhs, kinds, budget).map(Done::Propagated),
        PROBE => {
            probe(n, m, bounds, coefs, rhs, kinds, table, variable, budget).map(Done::Probed)
        }
        _ => is_probing_fixpoint(n, m, bounds, coefs, rhs, kinds).map(Done::Rested),
    }
}

// Makes a call.
pub fn make(
    n: usize,
    m: usize,
    bounds: &mut [i32],
    coefs: &mut [i32],
    rhs: &mut [i32],
    kinds: &mut [u8],
    table: &mut [u8],
    call: Call,
) -> Result<Done, Refusal> {
    let Call { row, variable, .. } = call;
    match call.kind {
        TIGHTEN_COEFFICIENT => {
            tighten_coefficient(n, m, bounds, coefs, rhs, kinds, row, variable).map(Done::Tightened)
        }
        REMOVE_ROW => {
            remove_redundant_row(n, m, bounds, coefs, rhs, kinds, row).map(Done::Removed)
        }
        _ => make_on_box(n, m, bounds, coefs, rhs, kinds, table, call),
    }
}

// Whether the answer is that the model is infeasible.
pub fn is_infeasible(made: Result<Done, Refusal>) -> bool {
    matches!(
        made,
        Ok(
            Done::PropagatedRow(RowPropagation::Infeasible)
                | Done::Propagated(Propagation::Infeasible(_, _))
                | Done::Probed(Probing::Infeasible(_, _))
                | Done::Tightened(CoefficientTightening::Infeasible)
                | Done::Removed(RowRemoval::Infeasible)
        )
    )
}
