// A line of the pages for the floor (02, C-23), written into a lent buffer: its fields, and where it begins.
#![tactic(auto)]

mod field;
mod line;

pub use line::{CONTENT, write_empty, write_first, write_further};
