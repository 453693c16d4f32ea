// The hanging cells of a sheet.
ghost use Rattle.std.specs.Prelude.{◌≡◌, ⊤};
ghost use Rattle.reader.specs.Reading.{SeenHanging, hanging_seen, read_hanging};

use crate::line::CellLines;
use crate::walk::{Broken, FromField, Walk};
use std::alloc::AllocError;

// A hanging cell: its position, its width, the rows left to it, and its lines.
#[derive(Copy, Debug, Drop)]
pub struct Hanging<'a> {
    pub position: u16,
    pub width: u8,
    pub rows: u8,
    pub lines: CellLines<'a>,
}

// By hand, as that of a `Line`.
impl<'a> Clone for Hanging<'a> {
    ghost is_clone = { λ a b. b ≡ a };

    ghost is_infallible = { λ _. ⊤ };

    fn clone(&self) -> Result<Self, AllocError> {
        Ok(Hanging {
            position: self.position,
            width: self.width,
            rows: self.rows,
            lines: self.lines.clone()?,
        })
    }
}

// The hanging cells of a sheet.
pub type Overhang<'a> = Walk<'a, Hanging<'a>>;

impl<'a> FromField<'a> for Hanging<'a> {
    ghost View = { SeenHanging };

    ghost view = { hanging_seen };

    ghost read = { read_hanging };

    fn from_field(letter: u8, content: &'a [u8]) -> Option<Result<Self, Broken>> {
        match (letter, content) {
            (b'V', [high, low, width, rows, lines @ ..]) => Some(Ok(Hanging {
                position: u16::from_be_bytes([*high, *low]),
                width: *width,
                rows: *rows,
                lines: CellLines::new(lines, 0),
            })),
            _ => Some(Err(Broken)),
        }
    }
}
