// What the block answers where a character is wider than a line (`Error::TooNarrow`).
use std::error::Error;
use std::fmt;

// A line has no room for a character, and the block may not overflow.
#[derive(Clone, Copy, Debug, PartialEq, Eq)]
pub struct TooNarrow;

impl fmt::Display for TooNarrow {
    fn fmt<W: fmt::Write>(&self, f: &mut fmt::Formatter<W>) -> fmt::Result {
        write!(f, "Output width not wide enough.")
    }
}

impl Error for TooNarrow {}
