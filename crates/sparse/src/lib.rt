// The sparse book (02, C-18), the second edition: calls of its own beside those of `book`. `trailer` reads n and m from
// the trailer alone, `reading::read` a whole book into lent buffers, `writing::write` a model into a lent book, and
// `writing::length` says how long that is. They require nothing: what fails a check is refused by the check's number,
// and then nothing is written. Reading a written book returns the same model, and writing a book that was read returns
// the same bytes.
#![tactic(auto)]

pub mod reading;
pub mod writing;

pub use reading::trailer;
