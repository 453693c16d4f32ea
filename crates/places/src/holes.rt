// The holes of a border, read one after the other.
use fields::list::split_field;
use fields::raw::{Broken, Field};

// A hole: the column where it begins, and the text or the name that stands there.
#[derive(Clone, Copy)]
pub struct Hole<'a> {
    pub place: u16,
    pub piece: Field<'a>,
}

// The holes that are left. A rest that is no hole is given once, and ends them.
#[derive(Clone, Copy)]
pub struct Holes<'a> {
    rest: &'a [u8],
}

impl<'a> Holes<'a> {
    ghost use Rattle.std.specs.Prelude.{◌≡◌};
    ghost use Rattle.fields.specs.Spans.{raw_holes};
    ghost use Rattle.places.specs.Holes.{holes_left, SplitsHole};

    // The holes that bytes are.
    pub fn new(bytes: &'a [u8]) -> Holes<'a>
        ensures { holes_left result ≡ raw_holes bytes.now }
    {
        Holes { rest: bytes }
    }

    // The hole that bytes begin with, and the bytes behind it.
    fn split(bytes: &'a [u8]) -> Option<(Hole<'a>, &'a [u8])>
        ensures { SplitsHole bytes.now result }
    {
        let (place, behind) = bytes.split_first_chunk::<2>()?;
        let (piece, rest) = split_field(behind)?;
        let hole = Hole {
            place: u16::from_be_bytes(*place),
            piece,
        };
        Some((hole, rest))
    }
}

impl<'a> Iterator for Holes<'a> {
    ghost use Rattle.std.specs.Iterator.{YieldsFirstBy, item_count};
    ghost use Rattle.places.specs.Holes.{raw_item, holes_left};

    type Item = Result<Hole<'a>, Broken>;

    ghost next_gives = { YieldsFirstBy raw_item holes_left };

    ghost remaining = { item_count holes_left };

    fn next(&mut self) -> Option<Result<Hole<'a>, Broken>> {
        if self.rest.is_empty() {
            return None;
        }
        let Some((hole, rest)) = Self::split(self.rest) else {
            self.rest = &[];
            return Some(Err(Broken));
        };
        self.rest = rest;
        Some(Ok(hole))
    }
}
