// How propagating all rows (01's settle) ends: its answer, the bounds moved so far, and the search for a row that would
// still change the box (`search`). Crate `row_passes` makes the passes.
#![tactic(auto)]

pub mod search;

ghost use Rattle.std.specs.Prelude.{◌≡◌, ◌+◌, ◌<◌, ◌^◌};

// The largest budget. Any valid box is narrower, so it is never spent.
pub const MAX_BUDGET: u32 = 8_388_481;

// 01's None, Settled and Spent, each with the passes made and the number of bounds moved.
#[derive(Clone, Copy)]
pub enum Propagation {
    Infeasible(u32, u32),
    Converged(u32, u32),
    BudgetSpent(u32, u32),
}

// The bounds that the rows of a propagation have moved so far, by value (02: "carries that sum for each side").
// A struct by value and its method, not a number: the form that docs/DECISIONS.md ("Language forms by place") names.
#[derive(Clone, Copy)]
pub struct Tally {
    pub moved: u32,
}

impl Tally {
    // With the bounds that one more row moved.
    pub fn add(self, moved: u32) -> Tally
        requires { self.moved + moved < 2 ^ 32 }
        ensures { result.moved ≡ self.moved + moved }
    {
        Tally {
            moved: self.moved + moved,
        }
    }
}
