// Refusal 10 of a row, found before anything is written (request 2.1): whether a line of a seat cannot be drawn, and whether a hole ends
// past the border below the row.
#![tactic(auto)]

mod reach;
pub mod row;
mod seat;
