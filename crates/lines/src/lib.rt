// The words of a line, and the values that they spell.
#![tactic(auto)]

pub mod fields;
pub mod words;
