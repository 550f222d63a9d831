// What removing a redundant row answers.

// 01's None, Dropped, Same.
#[derive(Clone, Copy)]
pub enum RowRemoval {
    Infeasible,
    Removed,
    Unchanged,
}
