// Borders in a lent buffer of at most 65,536 bytes that may be too short for them: what lies past the buffer is dropped and the length
// goes on, so that nothing is required of widths and positions; a running position stops growing at a cap. Also the two
// cuts beside a hole.
#![tactic(auto)]

pub mod border;
pub mod chop;
pub mod position;
