// Refusals 1, 2 and 3 of sheets and cells with the fields of requests 2.1 and 2.2: a border with holes (G), a cell that spans rows (K), a
// name that waits on a sheet (F), and a cell that hangs from one (V). A check answers the refusal that the input gets.
#![tactic(auto)]

pub mod cells;
mod holed;
mod line;
pub mod sheet;
