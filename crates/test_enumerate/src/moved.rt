// The bounds that a call says it moved, held against the bounds before and after it.
use call::{PROPAGATE, PROPAGATE_ROW};
use model::refusal::Refusal;
use propagation::Propagation;
use row::propagation::RowPropagation;
use test_one_call::made::Done;
use two_sides::{Probing, Side};

// How many bounds differ.
fn differing(before: &[i32], after: &[i32]) -> usize {
    before
        .iter()
        .zip(after)
        .filter(|(old, new)| *old != *new)
        .count()
}

// A row moved each bound that differs once; one that is infeasible tells no number.
fn row_agrees(a: RowPropagation, differ: usize) -> bool {
    match a {
        RowPropagation::Infeasible => true,
        RowPropagation::Tightened(moved) => differ != 0 && differ == moved as usize,
        RowPropagation::Unchanged => differ == 0,
    }
}

// Each pass but the last moved a bound.
fn fits(passes: u32, moved: u32) -> bool {
    passes.saturating_sub(1) <= moved
}

// A bound that differs was moved, perhaps more than once.
fn sum_agrees(passes: u32, moved: u32, differ: usize) -> bool {
    fits(passes, moved) && differ <= moved as usize
}

fn rows_agree(a: Propagation, differ: usize) -> bool {
    match a {
        Propagation::Infeasible(passes, moved) => fits(passes, moved),
        Propagation::Converged(passes, moved) => sum_agrees(passes, moved, differ),
        Propagation::BudgetSpent(passes, moved) => sum_agrees(passes, moved, differ),
    }
}

fn sides_agree(side0: Side, side1: Side) -> bool {
    fits(side0.passes, side0.moved) && fits(side1.passes, side1.moved)
}

fn probe_agrees(a: Probing) -> bool {
    match a {
        Probing::Infeasible(side0, side1) => sides_agree(side0, side1),
        Probing::Fixed(_, side0, side1) => sides_agree(side0, side1),
        Probing::BothFeasible(_, side0, side1) => sides_agree(side0, side1),
    }
}

pub fn agrees(kind: u32, made: Result<Done, Refusal>, before: &[i32], after: &[i32]) -> bool {
    match made {
        // A propagation that is refused moved no bound.
        Err(_) => !matches!(kind, PROPAGATE_ROW | PROPAGATE) || differing(before, after) == 0,
        Ok(Done::PropagatedRow(a)) => row_agrees(a, differing(before, after)),
        Ok(Done::Propagated(a)) => rows_agree(a, differing(before, after)),
        Ok(Done::Probed(a)) => probe_agrees(a),
        Ok(Done::Tightened(_) | Done::Removed(_) | Done::Rested(_)) => true,
    }
}
