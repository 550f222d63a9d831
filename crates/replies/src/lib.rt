// What the calls of the C interface say: the number that a call returns and the twelve places of its answer (`reply`),
// and the reply to the answers about ties, clique rows and pages; `call_replies` and `plan_replies` have the others.
#![tactic(auto)]

pub mod clique_rows;
pub mod numbered;
pub mod paper;
pub mod reply;
pub mod tied;
