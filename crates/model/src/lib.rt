// A model in memory: n variables and m rows over flat lent buffers. bounds: l and u of each variable in turn, 2n;
// coefs: row after row, m · n; rhs and kinds: m; table: 4n² bytes. Here are its limits, and no code: what a model, a
// box, a row and a point are, and which checks a model passes. The checks are made in `buffer_checks` and
// `model_checks`.
#![tactic(auto)]

pub mod refusal;

pub const MAX_VARIABLES: usize = 128;

pub const MAX_ROWS: usize = 120;

// The numbers of the largest box, and the coefficients of the largest matrix.
pub const MAX_BOX: usize = 256;

pub const MAX_MATRIX: usize = 15_360;

// The literals of the most variables, and the bytes of the largest table.
pub const MAX_LITERALS: usize = 256;

pub const MAX_TABLE: usize = 65_536;

pub const MIN_BOUND: i32 = -32_768;

pub const MAX_BOUND: i32 = 32_767;

// The widest variable, u − l.
pub const MAX_WIDTH: i32 = 4_096;

pub const MAX_COEF: i32 = 1_000_000;

pub const MAX_RHS: i32 = 1_000_000_000;
