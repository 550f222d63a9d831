// Many proposed allocations held against one model (02, C-21). First each proposal is held against the box, which
// decides alone where it is not met; then the rows are read once, upwards, and each row is held against every proposal
// that has no verdict yet. `check_allocations` is open: it requires nothing, and refuses by the first check that
// fails.
#![tactic(auto)]

mod call;
mod judging;

pub use call::check_allocations;
