// The lines that come where the border below a row is (request 2.1): as cuts in the border, as holes of a G field, or as text.
#![tactic(auto)]

mod filled;
mod line;
mod pieces;
pub mod row;
pub mod text;
