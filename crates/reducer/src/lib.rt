// The reducer (01's upper crate): the open calls that propagate, and what the answers of all six open calls mean; the
// others are in `probe_call`, `change_call` and `rest_call`, call lists in `flat_list`. An open call finds the first
// fault of what it is lent, or hands a model that passed the checks to the crates below; none requires anything.
#![tactic(auto)]

pub mod calls;

pub use two_sides::Side;
