// The call that writes the clique rows of a table (02, C-12), open like those of the reducer: any n, any buffers with
// any contents. `listing` has the lent list: a clique is grown in the row after the last that was written, compared
// with the rows before it, and kept or cleared.
#![tactic(auto)]

pub mod call;
mod listing;
