// A row of cells (request 2.1): the first of them kept, so that a row of few cells is read once; and what a row is asked before anything is
// written.
#![tactic(auto)]

pub mod row;
pub mod survey;
