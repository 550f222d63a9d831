// One row and the box (01's lower crate), without code: what its activities are, what propagating it does and what the
// calls that may change it do, and the laws of these. A row is its n coefficients, read in place as a part of the
// matrix, and its right side. The code is in `row_activity`, `row_bounds` and `row_propagation`, that of the calls that
// may change a row in `row_tightening` and `row_removal`: it takes a row of a model that passed the checks, its box
// empty or not; no crate above looks at a coefficient's sign.
#![tactic(auto)]

pub mod propagation;
pub mod redundancy;
pub mod tightening;
