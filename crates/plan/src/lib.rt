// What a book and a list of calls will take, told before they are loaded (02, C-17): the three calls defined, and
// `width`, which reads the bounds. `plan_lengths` reads the trailer alone, `plan_passes` the bounds and the list; none
// of them reads a row, and none makes a pass. All three are open: they require nothing, and refuse by the first check
// that fails.
#![tactic(auto)]

pub mod bounds;

pub use bounds::width;

// n and m, and in elements the length of each buffer that they fix; `book` is that of a first-edition book.
#[derive(Clone, Copy, PartialEq, Eq)]
pub struct BufferLengths {
    pub n: usize,
    pub m: usize,
    pub bounds: usize,
    pub coefs: usize,
    pub rhs: usize,
    pub kinds: usize,
    pub table: usize,
    pub ties: usize,
    pub clique_coefs: usize,
    pub clique_rhs: usize,
    pub book: usize,
}

// The total width of a box, and a budget that no propagation from it spends.
#[derive(Clone, Copy, PartialEq, Eq)]
pub struct BoxBudget {
    pub width: u32,
    pub budget: u32,
}

// Those, and an upper limit on the passes that a list of calls makes.
#[derive(Clone, Copy, PartialEq, Eq)]
pub struct PassLimit {
    pub width: u32,
    pub budget: u32,
    pub passes: u64,
}
