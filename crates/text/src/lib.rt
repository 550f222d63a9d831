// Numbers and bytes as text, written into a lent buffer.
#![tactic(auto)]

pub mod number;
