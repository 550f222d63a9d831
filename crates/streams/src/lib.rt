// Standard input and standard output of a program. `input` reads the input whole, however its bytes arrive, and keeps
// what `intake` keeps of it; `output` prints in few writes and counts the bytes that were written. No contract can say
// which bytes are read or written; that what is kept is what was read, and that a text is handed on whole, is proved.
#![tactic(auto)]

pub mod input;
pub mod output;
