// What tightening a coefficient of a row answers.

// 01's None, Sharpened, Same.
#[derive(Clone, Copy)]
pub enum CoefficientTightening {
    Infeasible,
    Tightened,
    Unchanged,
}
