// One round of `reduce` and its rounds (01, "Book"; 02, C-20 and C-24), by definition: why they end, and what they
// promise. No code stands here: crate `round` makes one round, `rounds_call` all of them.
#![tactic(auto)]

// How the rounds that were made ended, with their number and whether the budget of a probe's side was spent in the last
// of them: at None; after a round that changed nothing; at the limit.
#[derive(Clone, Copy, PartialEq, Eq)]
pub enum RoundsMade {
    Infeasible(u64, bool),
    NothingChanged(u64, bool),
    AtLimit(u64, bool),
}
