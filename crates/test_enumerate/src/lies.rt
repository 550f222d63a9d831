// Mistakes put into what a call left, to see that they are found.
use call::{Call, TIGHTEN_COEFFICIENT};
use test_points::models;

#[derive(Clone, Copy, PartialEq, Eq)]
pub enum Lie {
    // A right side is lowered with a negative coefficient.
    RightSideLowered,
    // The upper bound of variable 0 is cut to 0.
    BoundCut,
    // The upper bound of variable 0 is moved out to 3.
    BoundMovedOut,
    // The table says that variable 0 is 0 where it is 1.
    ImplicationInvented,
    // The model is said to be infeasible.
    InfeasibleSaid,
    // The upper bound of variable 0 before the call is moved out to 3, so that one bound more differs than was moved.
    MoveNotCounted,
    // Row 0 is a ≤ row.
    EqualityLost,
}

// Whether a coefficient is above what it was: after a tightening only a negative one that was tightened is.
fn is_raised(before: &[i32], coefs: &[i32]) -> bool {
    before.iter().zip(coefs).any(|(old, new)| *old < *new)
}

// The predecessor's mistake in a tightening: the right side lowered with a negative coefficient, which
// can only go from -2 to -1 here.
fn lower(code: usize, call: Call, coefs: &[i32], rhs: &mut [i32]) {
    if call.kind != TIGHTEN_COEFFICIENT {
        return;
    }
    let row = call.row as usize;
    let mut before = [0i32; 12];
    let mut less = [0i32; 3];
    models::coefficients(&mut before, code);
    models::lowered(&mut less, code);
    if is_raised(&before, coefs) && row < rhs.len().min(3) {
        rhs[row] = less[row];
    }
}

fn set<T: Copy>(xs: &mut [T], at: usize, x: T) {
    if at < xs.len() {
        xs[at] = x;
    }
}

// The mistakes in what the call left.
pub fn spoil(
    lie: Lie,
    code: usize,
    call: Call,
    bounds: &mut [i32],
    coefs: &[i32],
    rhs: &mut [i32],
    kinds: &mut [u8],
    table: &mut [u8],
) {
    match lie {
        Lie::RightSideLowered => lower(code, call, coefs, rhs),
        Lie::BoundCut => set(bounds, 1, 0),
        Lie::BoundMovedOut => set(bounds, 1, 3),
        Lie::ImplicationInvented => set(table, bounds.len(), 1),
        Lie::EqualityLost => set(kinds, 0, 0),
        Lie::InfeasibleSaid | Lie::MoveNotCounted => {}
    }
}

// The mistake in what was there before the call.
pub fn spoil_before(lie: Option<Lie>, before: &mut [i32]) {
    if lie == Some(Lie::MoveNotCounted) {
        set(before, 1, 3);
    }
}
