// The calls that no record has, each asked by a line and answered in words: ties (`tied`), clique rows
// (`clique_cases`), plans (`plans`) and books (`book_cases`). Proved is only that all this is safe and ends.
#![tactic(auto)]

pub mod book_cases;
pub mod clique_cases;
pub mod plans;
pub mod tied;
