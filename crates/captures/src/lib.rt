// Captures of a logic analyser: line edges to frames.
#![tactic(auto)]

pub mod edge_lines;
pub mod edge_printing;
pub mod edges;
pub mod pulses;
