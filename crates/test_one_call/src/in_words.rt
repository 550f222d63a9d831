// What the open calls answer, in words: one function for each thing that a call does, `answer` for that of any call.
use crate::made::Done;
use model::refusal::Refusal;
use propagation::Propagation;
use rest::Rest;
use row::propagation::RowPropagation;
use row::redundancy::RowRemoval;
use row::tightening::CoefficientTightening;
use std::io::Stdout;
use test_text::print::{item, refused, text};
use two_sides::{Probing, Side};

// How a propagation ended, its passes and the bounds that it moved.
fn ended(out: Stdout, word: &[u8], passes: u32, moved: u32) {
    item(out, word, passes);
    item(out, b" moved", moved);
}

fn propagated_row(out: Stdout, a: RowPropagation) {
    match a {
        RowPropagation::Infeasible => text(out, b" infeasible"),
        RowPropagation::Tightened(moved) => item(out, b" tightened", moved),
        RowPropagation::Unchanged => text(out, b" unchanged"),
    }
}

fn propagated(out: Stdout, a: Propagation) {
    match a {
        Propagation::Infeasible(passes, moved) => ended(out, b" infeasible", passes, moved),
        Propagation::Converged(passes, moved) => ended(out, b" converged", passes, moved),
        Propagation::BudgetSpent(passes, moved) => ended(out, b" spent", passes, moved),
    }
}

fn side(out: Stdout, s: Side) {
    if s.spent {
        ended(out, b" spent", s.passes, s.moved);
    } else {
        ended(out, b" side", s.passes, s.moved);
    }
}

fn sides(out: Stdout, side0: Side, side1: Side) {
    side(out, side0);
    side(out, side1);
}

fn probed(out: Stdout, a: Probing) {
    match a {
        Probing::Infeasible(side0, side1) => {
            text(out, b" infeasible");
            sides(out, side0, side1);
        }
        Probing::Fixed(value, side0, side1) => {
            item(out, b" fixed", value);
            sides(out, side0, side1);
        }
        Probing::BothFeasible(added, side0, side1) => {
            item(out, b" both", added);
            sides(out, side0, side1);
        }
    }
}

fn tightened(out: Stdout, a: CoefficientTightening) {
    match a {
        CoefficientTightening::Infeasible => text(out, b" infeasible"),
        CoefficientTightening::Tightened => text(out, b" tightened"),
        CoefficientTightening::Unchanged => text(out, b" unchanged"),
    }
}

fn removed(out: Stdout, a: RowRemoval) {
    match a {
        RowRemoval::Infeasible => text(out, b" infeasible"),
        RowRemoval::Removed => text(out, b" removed"),
        RowRemoval::Unchanged => text(out, b" unchanged"),
    }
}

fn rested(out: Stdout, a: Rest) {
    match a {
        Rest::AtRest => text(out, b" yes"),
        Rest::ByRow(r) => item(out, b" no by row", r),
        Rest::ByVariable(k) => item(out, b" no by variable", k),
    }
}

pub fn answer(out: Stdout, made: Result<Done, Refusal>) {
    match made {
        Err(refusal) => refused(out, refusal),
        Ok(Done::PropagatedRow(a)) => propagated_row(out, a),
        Ok(Done::Propagated(a)) => propagated(out, a),
        Ok(Done::Probed(a)) => probed(out, a),
        Ok(Done::Tightened(a)) => tightened(out, a),
        Ok(Done::Removed(a)) => removed(out, a),
        Ok(Done::Rested(a)) => rested(out, a),
    }
}
