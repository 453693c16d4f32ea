// The cells of a row, one after the other (request 2.1): the V fields of the sheet in their places among the C and K fields.
#![tactic(auto)]

pub mod cell;
pub mod hanging;
pub mod iter;
pub mod seat;
