// The book (01, "Book"): a model as a file. First the bounds, then for each row its right side and its coefficients,
// each number four bytes, the lowest first, in two's complement; then a trailer of 16 bytes that says where they are.
// `trailer` reads n and m from the trailer alone; crate `book_reading` reads a whole book into lent buffers, crate
// `book_writing` writes a model into a lent book. They are all that is open to users, and they require nothing: a
// book or a model that fails a check is refused by the check's number, and then nothing is written. Reading a written
// book returns the same model, and writing a book that was read returns the same bytes. `layout` has what both
// editions share: the trailer.
#![tactic(auto)]

pub mod layout;

pub use layout::{Sizes, trailer};
