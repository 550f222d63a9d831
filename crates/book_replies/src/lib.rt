// What the calls of the C interface on books say: the number that refuses an answer buffer of a wrong length, which is
// check 5 in its place among a book's checks, and the replies that only these calls have.
#![tactic(auto)]

pub mod books;
pub mod sparse_books;
