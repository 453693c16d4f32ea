// The names that wait for the next text line.
ghost use Rattle.std.specs.Prelude.{ℕ, List};
ghost use Rattle.reader.specs.Reading.{name_seen, read_name};

use crate::walk::{Broken, FromField, Walk};

// A name that waits.
#[derive(Clone, Copy, Debug, PartialEq, Eq, Drop)]
pub struct Name<'a>(pub &'a [u8]);

// The names that wait. They are over at the first hanging cell.
pub type Names<'a> = Walk<'a, Name<'a>>;

impl<'a> FromField<'a> for Name<'a> {
    ghost View = { List ℕ };

    ghost view = { name_seen };

    ghost read = { read_name };

    fn from_field(letter: u8, content: &'a [u8]) -> Option<Result<Self, Broken>> {
        match letter {
            b'F' => Some(Ok(Name(content))),
            b'V' => None,
            _ => Some(Err(Broken)),
        }
    }
}
