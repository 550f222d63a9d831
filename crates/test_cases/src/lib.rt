// What the test programs share: the lines of standard input change a model in lent buffers (`buffers`) and make calls
// on it, call lists among them (`lists`); `cases` says what a line may be. What the calls give is printed and compared
// with a stored output. Proved is only that all this is safe and ends.
#![tactic(auto)]

mod buffers;
mod cases;
mod lists;

pub use cases::run;
