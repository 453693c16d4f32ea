// A border with holes as text (request 2.1): whether its holes overlap, its drawing on a line that is being written, and the columns
// of a line. The functions are for the crates above: what they require, that places stay below 2^62 and a content below 65,536 bytes,
// those show from the sizes of their inputs.
#![tactic(auto)]

pub mod cols;
pub mod draw;
pub mod overlap;
