// The two borders of a row (request 2.1): joined at its inner edges, and merged with the first and the last borders of its cells.
#![tactic(auto)]

pub mod border;
mod join;
mod merge;
