// Small models by number (`models`), and their integer points on a grid (`grid`), by nothing but the definition of an
// integer point. Proved is only that all this is safe and ends.
#![tactic(auto)]

pub mod grid;
pub mod models;
