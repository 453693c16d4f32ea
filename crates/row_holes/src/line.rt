// The line of one seat that comes where the border below the row is.
ghost use Rattle.std.specs.Prelude.{◌≡◌, ◌+◌, ◌^◌, ◌≤◌, ◌<◌, length, IfSome};
ghost use Rattle.row_holes.specs.Through.{FindsThrough, LaysBorder};
ghost use Rattle.row_holes.specs.Row.{CutsSeat, PutIn, PutsSeat};

use crate::pieces::{cut_pieces, put_pieces};
use bodies::body::body_of;
use bodies::walk::skip_lines;
use fields::list::Fields;
use fields::raw::{Broken, Field};
use holes::draw::push_tagged;
use long_borders::border::BorderHoriz;
use places::border::Border;
use slots::seat::Seat;
use tagged_line::line::Line;

// The line that comes where the border is: the first that is left so many lines down, or none. A rest that is no line brings nothing.
pub fn line_through(
    seat: Seat<'_>,
    collapse: bool,
    height: usize,
) -> Option<Result<Field<'_>, Broken>>
    ensures { FindsThrough seat.entry collapse height result }
{
    Fields::new(skip_lines(body_of(seat.lines, collapse).lines, height)).next()
}

// A border laid as pieces behind the three bytes of a head, stretched to a width: where they end.
fn lay_border(laid: &mut [u8], border: Border<'_>, to: usize) -> usize
    requires { to < 65536 }
    ensures laid_len_unchanged { (length laid.new ≡ length laid.old) × (3 ≤ result) }
    ensures lays_border { LaysBorder border.entry to laid.new result }
{
    push_tagged(laid, Line::new(0), border, to).at
}

// The border cut for the line of one seat, if the seat hangs on: a text stands in the seat's bytes, a border is laid as pieces, and where
// there is no line the seat's width is filled.
pub fn cut_seat(
    border: &mut BorderHoriz<'_>,
    annotation: u8,
    seat: Seat<'_>,
    collapse: bool,
    height: usize,
    pos: usize,
    laid: &mut [u8],
)
    requires { (pos < 8589934592) × (length laid.old ≤ 65538) }
    ensures same_buffer { border.new.buffer.ghost_name ≡ border.old.buffer.ghost_name }
    ensures room { (length border.new.buffer.now ≡ length border.old.buffer.now) × (length laid.new ≡ length laid.old) }
    ensures cuts_seat { CutsSeat border.old annotation seat.entry collapse height pos (length laid.old) border.new }
{
    if seat.span < 2 {
        return;
    }
    match line_through(seat, collapse, height) {
        None => cut_pieces(border, &[], seat.width, annotation, pos),
        Some(Ok(line)) => {
            if line.letter == b'L' {
                return cut_pieces(border, line.content, seat.to, annotation, pos);
            }
            let end = lay_border(laid, Border::of(line), seat.to);
            if let Some(pieces) = laid.get(3..end) {
                cut_pieces(border, pieces, 0, annotation, pos);
            }
        }
        Some(Err(_)) => {}
    }
}

// The line of one seat as holes, if there is room to lay it.
pub fn put_seat(
    out: &mut [u8],
    place: usize,
    annotation: u8,
    seat: Seat<'_>,
    collapse: bool,
    height: usize,
    pos: usize,
    laid: &mut [u8],
) -> Option<usize>
    requires { (pos < 8589934592) × (length laid.old ≤ 65538) × (place + 524288 < 2 ^ 62) }
    ensures out_len_unchanged { (length out.new ≡ length out.old) × (length laid.new ≡ length laid.old) × IfSome result (PutIn place) }
    ensures puts_seat { PutsSeat out.old place annotation seat.entry collapse height pos (length laid.old) out.new result }
{
    match line_through(seat, collapse, height) {
        None => Some(put_pieces(out, place, &[], seat.width, annotation, pos)),
        Some(Ok(line)) => {
            if line.letter == b'L' {
                return Some(put_pieces(out, place, line.content, seat.to, annotation, pos));
            }
            let end = lay_border(laid, Border::of(line), seat.to);
            let pieces = laid.get(3..end)?;
            Some(put_pieces(out, place, pieces, 0, annotation, pos))
        }
        Some(Err(_)) => Some(place),
    }
}
