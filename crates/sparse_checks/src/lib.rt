// The layout of a sparse book (02, C-18), checked: `head` has checks 1 to 4, of which 4 walks over the rows,
// `entries` 19 and 20. Crate `sparse_reading` has the other checks of a book.
#![tactic(auto)]

pub mod entries;
pub mod head;
