// The lines of all seats of a row that come where the border below it is.
ghost use Rattle.std.specs.Prelude.{◌≡◌, ◌+◌, ◌^◌, ◌≤◌, ◌<◌, length, IfSome};
ghost use Rattle.row_holes.specs.Row.{CutsHoles, PutsOne, HolesIn, PutsHoles};

use crate::line::{cut_seat, put_seat};
use long_borders::border::BorderHoriz;
use long_borders::position::advance;
use seats::row::Row;
use slots::seat::Seat;

// The border cut for all holes.
pub fn cut_holes(
    border: &mut BorderHoriz<'_>,
    annotation: u8,
    row: &Row<'_>,
    collapse: bool,
    height: usize,
    laid: &mut [u8],
)
    requires { length laid.old ≤ 65538 }
    ensures same_buffer { border.new.buffer.ghost_name ≡ border.old.buffer.ghost_name }
    ensures room { (length border.new.buffer.now ≡ length border.old.buffer.now) × (length laid.new ≡ length laid.old) }
    ensures cuts_holes { CutsHoles border.old annotation row.now collapse height (length laid.old) border.new }
{
    let mut pos = 0;
    for seat in row.iter() {
        cut_seat(border, annotation, seat, collapse, height, pos, laid);
        pos = advance(pos, seat.width + 1);
    }
}

// The line of one seat as holes, if the seat hangs on; a content that is too long already takes no more.
fn put_one(
    out: &mut [u8],
    base: usize,
    place: usize,
    annotation: u8,
    seat: Seat<'_>,
    collapse: bool,
    height: usize,
    pos: usize,
    laid: &mut [u8],
) -> Option<usize>
    requires { (pos < 8589934592) × (length laid.old ≤ 65538) × (base ≤ place) × (base + 1048576 < 2 ^ 62) }
    ensures out_len_unchanged { (length out.new ≡ length out.old) × (length laid.new ≡ length laid.old) × IfSome result (λ at. base ≤ at) }
    ensures puts_one { PutsOne out.old base place annotation seat.entry collapse height pos (length laid.old) out.new result }
{
    if seat.span < 2 {
        return Some(place);
    }
    if 65535 < place - base {
        return None;
    }
    put_seat(out, place, annotation, seat, collapse, height, pos, laid)
}

// All holes, behind the segments of a G field whose content begins at a place: where they end, or none if the content is too long.
pub fn put_holes(
    out: &mut [u8],
    base: usize,
    place: usize,
    annotation: u8,
    row: &Row<'_>,
    collapse: bool,
    height: usize,
    laid: &mut [u8],
) -> Option<usize>
    requires { (length laid.old ≤ 65538) × (base ≤ place) × (base + 1048576 < 2 ^ 62) }
    ensures out_len_unchanged { (length out.new ≡ length out.old) × (length laid.new ≡ length laid.old) × IfSome result (HolesIn base) }
    ensures puts_holes { PutsHoles out.old base place annotation row.now collapse height (length laid.old) out.new result }
{
    let mut at = place;
    let mut pos = 0;
    for seat in row.iter() {
        at = put_one(out, base, at, annotation, seat, collapse, height, pos, laid)?;
        pos = advance(pos, seat.width + 1);
    }
    (at - base <= 65535).then_some(at)
}
