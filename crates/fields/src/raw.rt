// A field as it stands in a list of bytes.
ghost use Rattle.std.specs.Prelude.{◌<◌, length};

use std::error::Error;
use std::fmt;

// A whole field: its letter and its content, which is as long as two bytes can say.
#[derive(Clone, Copy)]
pub struct Field<'a> {
    pub letter: u8,
    pub content: &'a [u8],
    ghost short: { length content.now < 65536 },
}

// A rest that is no field.
#[derive(Clone, Copy, Debug, PartialEq, Eq, Drop)]
pub struct Broken;

impl fmt::Display for Broken {
    fn fmt<W: fmt::Write>(&self, f: &mut fmt::Formatter<W>) -> fmt::Result {
        f.write_str("broken")
    }
}

impl Error for Broken {}
