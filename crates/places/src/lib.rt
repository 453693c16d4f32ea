// A border as its field holds it, and its holes, one after the other (request 2.1).
#![tactic(auto)]

pub mod border;
pub mod holes;
