// What propagating a row answers.

// 01's None, Narrowed with the number of bounds that moved, Same.
#[derive(Clone, Copy)]
pub enum RowPropagation {
    Infeasible,
    Tightened(u32),
    Unchanged,
}
