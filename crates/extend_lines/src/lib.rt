// Lines onto a sheet that is being written into a lent store (`extend_lines`, `add_line`): the old sheet's lines copied as they stand, new
// lines padded if the call says so, the cells that hang from the sheet handed on, and the end of the call with refusals 7, 9 and 8 (document
// 01, "Rows and blocks on a sheet", and request 2.1). The head's place is kept free, and the head comes last. The functions are for the
// crates above: what they require, that lines and places stay in bounds, those show from the sizes of their inputs.
#![tactic(auto)]

pub mod copy;
pub mod line;
