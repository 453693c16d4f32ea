// The lines of a cell (request 2.1): those behind a first border, the last one, the lines that collapsing leaves with the border behind
// them, and the lines from a number on.
#![tactic(auto)]

pub mod body;
pub mod walk;
