// The cells that hang on below a row (request 2.1): what is left of each, with its lines filled to its width, as a V field behind the
// lines of the sheet and the names that wait on it (request 2.2). The functions are for the crates above: what they require, that places stay in bounds, those show from the sizes of their inputs.
#![tactic(auto)]

pub mod border;
pub mod hang;
mod line;
