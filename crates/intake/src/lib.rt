// An input of any length, kept as far as a book can need it: its start, its last 16 bytes and its length. `take_in`
// takes in one piece after the other, however they arrive. `sizes` makes checks 1 to 4 of the whole input from its last
// 16 bytes and its length alone, so the number is right also where the input is longer than any book, and an input that
// is accepted fits a buffer of MAX_BOOK bytes. `is_too_long` says from when on no more of an input need be read.
#![tactic(auto)]

mod checking;
mod input;

pub use checking::{is_too_long, sizes};
pub use input::take_in;

// The length of the book of 128 variables and 120 rows: 8 · 128 + 120 · (4 + 4 · 128) + 16 bytes.
pub const MAX_BOOK: usize = 62_960;
