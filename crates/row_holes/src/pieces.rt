// The pieces of one line as cuts in a border and as holes, filled to a width.
ghost use Rattle.std.specs.Prelude.{◌≡◌, ◌+◌, ◌*◌, ◌^◌, ◌≤◌, ◌<◌, length};
ghost use Rattle.fields.specs.Store.{Wrote};
ghost use Rattle.row_holes.specs.Pieces.{part_hole, PutsPieces, CutsPieces};

use crate::filled::{Filled, Part};
use fields::store::{put_bytes, put_head, put_repeat, put_two};
use long_borders::border::BorderHoriz;
use long_borders::position::advance;

// One piece as a hole, with the spaces behind it.
fn put_hole(out: &mut [u8], at: usize, x: usize, part: Part<'_>) -> usize
    requires { at + 5 + length part.field.content.now + part.spaces < 2 ^ 62 }
    ensures wrote { Wrote out.old at (part_hole x part.entry) out.new result }
{
    let content = part.field.content;
    let column = put_two(out, at, x % 65536);
    let start = put_head(
        out,
        column,
        part.field.letter,
        (content.len() + part.spaces) % 65536,
    );
    let end = put_bytes(out, start, content);
    put_repeat(out, end, b' ', part.spaces)
}

// The border cut for each of some pieces, the first at a place, filled to a width.
pub fn cut_pieces(
    border: &mut BorderHoriz<'_>,
    pieces: &[u8],
    to: usize,
    annotation: u8,
    pos: usize,
)
    requires { (to < 131072) × (pos < 8589934592) }
    ensures same_buffer { border.new.buffer.ghost_name ≡ border.old.buffer.ghost_name }
    ensures room { length border.new.buffer.now ≡ length border.old.buffer.now }
    ensures cuts_pieces { CutsPieces border.old pieces.now to annotation pos border.new }
{
    let annotation = [annotation];
    let mut x = pos;
    for part in Filled::new(pieces, to, &annotation) {
        let end = advance(x, part.cols);
        border.cut_for(x, end);
        x = end;
    }
}

// Some pieces as holes, the first at a place, filled to a width.
pub fn put_pieces(
    out: &mut [u8],
    place: usize,
    pieces: &[u8],
    to: usize,
    annotation: u8,
    pos: usize,
) -> usize
    requires { (length pieces.now < 65536) × (to < 131072) × (pos < 8589934592) × (place + 524288 < 2 ^ 62) }
    ensures lower_bound { (place ≤ result) × (result ≤ place + 2 * length pieces.now + to + 6) × (length out.new ≡ length out.old) }
    ensures puts_pieces { PutsPieces out.old place pieces.now to annotation pos out.new result }
{
    let annotation = [annotation];
    let mut at = place;
    let mut x = pos;
    for part in Filled::new(pieces, to, &annotation) {
        at = put_hole(out, at, x, part);
        x = advance(x, part.cols);
    }
    at
}
