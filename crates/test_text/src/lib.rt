// The text of a test: lines read as words and numbers (`words`), the fronts of buffers that they fill (`parts`), a model
// that is looked at (`seen`), and what is written, words, numbers and models (`print`, `rows`). Proved is only that all
// this is safe and ends.
#![tactic(auto)]

pub mod parts;
pub mod print;
pub mod rows;
pub mod seen;
pub mod words;
