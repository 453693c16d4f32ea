// The lines of a row (request 2.1): what each seat gives to a line, from its next line on, with an edge between two; so many lines as the row
// is high. The first takes the names that wait (request 2.2). `full::add_row`, `seat::add_cell_text` and `long::is_long` are for the crates
// above: what they require, that lines and places stay in bounds, those show from the sizes of their inputs.
#![tactic(auto)]

pub mod full;
mod left;
pub mod long;
mod mark;
mod row;
pub mod seat;
