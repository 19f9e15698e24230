// A line gathered from pieces of input, and what a console says to a text in pieces.
#![tactic(auto)]

pub mod gathering;
