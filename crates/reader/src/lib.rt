// Reading a lent sheet without copying (document 01, "What changes shape"): iterators over its lines, over the pieces of a line and the holes of a border, and
// over the names that wait and the hanging cells behind the lines. A text and a name are parts of the caller's own bytes. Every answer is that of a
// definition, for broken sheets too, and nothing is required.
#![tactic(auto)]

pub mod hanging;
pub mod hole;
pub mod line;
pub mod piece;
pub mod reader;
#[cfg(test)]
mod tests;
pub mod waiting;
pub mod walk;
