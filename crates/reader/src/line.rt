// The lines of a sheet and of a hanging cell.
ghost use Rattle.std.specs.Prelude.{◌≡◌, ⊤};
ghost use Rattle.reader.specs.Reading.{SeenLine, line_seen, read_line, cell_line_seen, read_cell_line, plain_border, holed_border, seen};

use crate::hole::Holes;
use crate::piece::Pieces;
use crate::walk::{Broken, FromField, Walk};
use std::alloc::AllocError;

// A line: a text, or a border with its annotation, its segments and its holes.
#[derive(Copy, Debug, Drop)]
pub enum Line<'a> {
    Text(Pieces<'a>),
    Border {
        annotation: u8,
        segments: &'a [u8],
        holes: Holes<'a>,
    },
}

// By hand: where Copy and Clone are both derived, `line.clone()` has two lifetimes, which this kit's borrow checker does not cover.
impl<'a> Clone for Line<'a> {
    ghost is_clone = { λ a b. b ≡ a };

    ghost is_infallible = { λ _. ⊤ };

    fn clone(&self) -> Result<Self, AllocError> {
        match self {
            Line::Text(pieces) => Ok(Line::Text(pieces.clone()?)),
            Line::Border {
                annotation: a,
                segments: s,
                holes: h,
            } => Ok(Line::Border {
                annotation: *a,
                segments: s,
                holes: h.clone()?,
            }),
        }
    }
}

// The lines of a sheet. They are over at the first name that waits and at the first hanging cell.
pub type Lines<'a> = Walk<'a, Line<'a>>;

// The content of a B field as a border: an annotation and segments.
fn plain_border<'a>(content: &'a [u8]) -> Result<Line<'a>, Broken>
    ensures { seen line_seen result ≡ plain_border content.now }
{
    match content {
        [annotation, segments @ ..] => Ok(Line::Border {
            annotation: *annotation,
            segments,
            holes: Holes::none(),
        }),
        [] => Err(Broken),
    }
}

// The content of a G field as a border: an annotation, the number of segments in two bytes, the segments, and holes.
fn holed_border<'a>(content: &'a [u8]) -> Result<Line<'a>, Broken>
    ensures { seen line_seen result ≡ holed_border content.now }
{
    match content {
        [annotation, high, low, rest @ ..] => {
            let count = usize::from(u16::from_be_bytes([*high, *low]));
            if rest.len() <= count {
                return Err(Broken);
            }
            Ok(Line::Border {
                annotation: *annotation,
                segments: &rest[..count],
                holes: Holes::new(rest, count),
            })
        }
        _ => Err(Broken),
    }
}

impl<'a> FromField<'a> for Line<'a> {
    ghost View = { SeenLine };

    ghost view = { line_seen };

    ghost read = { read_line };

    fn from_field(letter: u8, content: &'a [u8]) -> Option<Result<Self, Broken>> {
        match letter {
            b'L' => Some(Ok(Line::Text(Pieces::new(content, 0)))),
            b'B' => Some(plain_border(content)),
            b'G' => Some(holed_border(content)),
            b'F' | b'V' => None,
            _ => Some(Err(Broken)),
        }
    }
}

// A line of a hanging cell, where no names wait.
#[derive(Copy, Debug, Drop)]
pub struct CellLine<'a>(pub Line<'a>);

// By hand, as that of a `Line`.
impl<'a> Clone for CellLine<'a> {
    ghost is_clone = { λ a b. b ≡ a };

    ghost is_infallible = { λ _. ⊤ };

    fn clone(&self) -> Result<Self, AllocError> {
        Ok(CellLine(self.0.clone()?))
    }
}

// The lines of a hanging cell. They are over at its end, and at a hanging cell in it, where bytes are left.
pub type CellLines<'a> = Walk<'a, CellLine<'a>>;

impl<'a> FromField<'a> for CellLine<'a> {
    ghost View = { SeenLine };

    ghost view = { cell_line_seen };

    ghost read = { read_cell_line };

    fn from_field(letter: u8, content: &'a [u8]) -> Option<Result<Self, Broken>> {
        match Line::from_field(letter, content) {
            Some(Ok(line)) => Some(Ok(CellLine(line))),
            None if letter == b'V' => None,
            _ => Some(Err(Broken)),
        }
    }
}
