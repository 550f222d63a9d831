// The C interface (include/astrolabe.h): every open call as a function with C linkage, each slice a pointer and a
// count. A function returns 0 or the number of the failed check, and writes the twelve places of its answer. It makes
// one check more than the open call has, of the answer's length, and nothing else happens here; the rest call and those
// on books and prepared models are handed on to functions with the same contract.
#![tactic(auto)]

pub mod allocations;
pub mod books;
pub mod clique_rows;
pub mod model_calls;
pub mod paper;
pub mod plans;
pub mod prepared;
pub mod sparse_books;
pub mod tied;
