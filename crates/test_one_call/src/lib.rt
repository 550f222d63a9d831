// One open call by value, made on the model (`made`) or on a copy of it (`copies`), and written as a line: the record
// (`transcript`) and the answer in words (`in_words`). Proved is only that all this is safe and ends.
#![tactic(auto)]

pub mod copies;
mod in_words;
pub mod made;
pub mod transcript;
