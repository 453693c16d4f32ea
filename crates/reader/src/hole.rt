// The holes of a border.
ghost use Rattle.std.specs.Prelude.{◌≡◌, ◌<◌, [], drop, length, false};
ghost use Rattle.std.specs.Iterator.{YieldsFirstBy, item_count};
ghost use Rattle.fields.specs.Spans.{raw_holes};
ghost use Rattle.reader.specs.Reading.{hole_seen, holes, holes_left, next_hole_place, seen, ReadsHole};

use crate::piece::Piece;
use crate::walk::{Broken, find};

// A hole: its column, and the piece that stands there.
#[derive(Clone, Copy, Debug, PartialEq, Eq, Drop)]
pub struct Hole<'a> {
    pub column: u16,
    pub piece: Piece<'a>,
}

// The hole at a place, and the place where the next one stands.
#[tactic(auto, using(crate::proofs::Places::hole_short, crate::proofs::Places::hole_bare, crate::proofs::Places::hole_broken, crate::proofs::Places::hole_no_piece, crate::proofs::Places::hole_in, crate::proofs::Places::hole_next))]
fn read_at<'a>(bytes: &'a [u8], at: usize) -> Result<(Hole<'a>, usize), Broken>
    requires { at < length bytes.now }
    ensures { ReadsHole bytes.now at result }
{
    if bytes.len() - at < 2 {
        return Err(Broken);
    }
    let column = u16::from_be_bytes([bytes[at], bytes[at + 1]]);
    let Some(found) = find(bytes, at + 2) else {
        return Err(Broken);
    };
    let found = found?;
    let piece = Piece::read(found.letter, found.content)?;
    Ok((Hole { column, piece }, found.next))
}

// The holes of a border. Behind what is broken it gives nothing more. A column stands before a hole's field, so a hole is no `FromField`, and this is no `Walk`.
#[derive(Clone, Copy, Debug, Drop)]
pub struct Holes<'a> {
    bytes: &'a [u8],
    at: usize,
    is_over: bool,
}

impl<'a> Holes<'a> {
    // A walk over no holes.
    pub fn none() -> Self
        ensures { holes_left result ≡ [] }
    {
        Holes {
            bytes: &[],
            at: 0,
            is_over: true,
        }
    }

    // A walk over all holes from a place on.
    pub fn new(bytes: &'a [u8], at: usize) -> Self
        ensures gives { holes_left result ≡ holes (raw_holes (drop at bytes.now)) }
        ensures bytes { result.bytes ≡ bytes.entry }
        ensures place { result.at ≡ at }
        ensures fresh { result.is_over ≡ false }
    {
        Holes {
            bytes,
            at,
            is_over: false,
        }
    }

    // The place where the next hole stands.
    pub fn place(&self) -> usize
        ensures { result ≡ self.now.at }
    {
        self.at
    }

    // The next hole, which is what the iterator gives; the walk goes on behind it, and stays at what is broken.
    #[tactic(auto, using(crate::proofs::Places::holes_over, crate::proofs::Places::no_hole_over, crate::proofs::Places::no_hole))]
    pub fn step(&mut self) -> Option<Result<Hole<'a>, Broken>>
        ensures gives { YieldsFirstBy (seen hole_seen) holes_left self.old result self.new }
        ensures bytes { self.new.bytes ≡ self.old.bytes }
        ensures place { self.new.at ≡ next_hole_place self.old }
    {
        if self.is_over || self.bytes.len() <= self.at {
            return None;
        }
        match read_at(self.bytes, self.at) {
            Ok((hole, next)) => {
                self.at = next;
                Some(Ok(hole))
            }
            Err(broken) => {
                self.is_over = true;
                Some(Err(broken))
            }
        }
    }
}

impl<'a> Iterator for Holes<'a> {
    type Item = Result<Hole<'a>, Broken>;

    ghost next_gives = { YieldsFirstBy (seen hole_seen) holes_left };

    ghost remaining = { item_count holes_left };

    fn next(&mut self) -> Option<Result<Hole<'a>, Broken>> {
        self.step()
    }
}
