// A call by value, its own checks, and how it counts.
#![tactic(auto)]

ghost use Rattle.std.specs.Prelude.{[], ◌≡◌, ◌+◌, ◌<◌, ◌^◌};
ghost use Rattle.row.specs.Answers.{propagated_row_of, removal_outcome, tightening_outcome};
ghost use Rattle.semantics.specs.Run.{count_call};
ghost use Rattle.call.specs.Classes.{class_is, counts_of, outcome_class, propagation_class};

use model::refusal::Refusal;
use propagation::Propagation;
use row::propagation::RowPropagation;
use row::redundancy::RowRemoval;
use row::tightening::CoefficientTightening;

pub mod checks;

// A call by value: the four numbers of a call record (01: "kind, 1 visit, 2 settle, 3 probe, 4 sharpen, 5 drop; row;
// variable; budget"). A field that the kind lacks is not looked at.
#[derive(Clone, Copy)]
pub struct Call {
    pub kind: u32,
    pub row: u32,
    pub variable: u32,
    pub budget: u32,
}

// 01's visit.
pub const PROPAGATE_ROW: u32 = 1;
// 01's settle.
pub const PROPAGATE: u32 = 2;
// 01's probe.
pub const PROBE: u32 = 3;
// 01's sharpen.
pub const TIGHTEN_COEFFICIENT: u32 = 4;
// 01's drop.
pub const REMOVE_ROW: u32 = 5;

// How a call counts: 01's refused, by which check, None, changed (a bound, row or table byte), unchanged.
#[derive(Clone, Copy)]
pub enum CallClass {
    Refused(Refusal),
    Infeasible,
    Changed,
    Unchanged,
}

pub fn class_of_row(p: RowPropagation) -> CallClass
    ensures { class_is result ≡ outcome_class (propagated_row_of p []).outcome }
{
    match p {
        RowPropagation::Infeasible => CallClass::Infeasible,
        RowPropagation::Tightened(_) => CallClass::Changed,
        RowPropagation::Unchanged => CallClass::Unchanged,
    }
}

pub fn class_of_tightening(t: CoefficientTightening) -> CallClass
    ensures { class_is result ≡ outcome_class (tightening_outcome t) }
{
    match t {
        CoefficientTightening::Infeasible => CallClass::Infeasible,
        CoefficientTightening::Tightened => CallClass::Changed,
        CoefficientTightening::Unchanged => CallClass::Unchanged,
    }
}

pub fn class_of_removal(t: RowRemoval) -> CallClass
    ensures { class_is result ≡ outcome_class (removal_outcome t) }
{
    match t {
        RowRemoval::Infeasible => CallClass::Infeasible,
        RowRemoval::Removed => CallClass::Changed,
        RowRemoval::Unchanged => CallClass::Unchanged,
    }
}

// A propagation changed a bound if it moved one.
pub fn class_of_propagation(p: Propagation) -> CallClass
    ensures { class_is result ≡ propagation_class p }
{
    match p {
        Propagation::Infeasible(_, _) => CallClass::Infeasible,
        Propagation::Converged(_, moved) | Propagation::BudgetSpent(_, moved) => {
            if moved == 0 {
                CallClass::Unchanged
            } else {
                CallClass::Changed
            }
        }
    }
}

// The four counts of a call list; their sum is the number of its records.
#[derive(Clone, Copy)]
pub struct Counts {
    pub refused: usize,
    pub infeasible: usize,
    pub changed: usize,
    pub unchanged: usize,
}

// The counts with one call more.
pub fn count(counts: Counts, class: CallClass) -> Counts
    requires { counts.refused + counts.infeasible + counts.changed + counts.unchanged < 2 ^ 63 }
    ensures { counts_of result ≡ count_call (class_is class) (counts_of counts) }
{
    let mut next = counts;
    match class {
        CallClass::Refused(_) => next.refused += 1,
        CallClass::Infeasible => next.infeasible += 1,
        CallClass::Changed => next.changed += 1,
        CallClass::Unchanged => next.unchanged += 1,
    }
    next
}
