// The border below a row with its holes as text: the segments between the holes and the lines of the seats are pushed on a line, one after
// the other. The text stands where the columns of the line are.
ghost use Rattle.std.specs.Prelude.{◌≡◌, ◌≤◌, ◌<◌, length};
ghost use Rattle.fields.specs.List.{whole_of};
ghost use Rattle.tagged_line.specs.Held.{Within, LineGrown};
ghost use Rattle.extend_lines.specs.Emitted.{InBounds, LineBegun};
ghost use Rattle.row_lines.specs.Seat.{seat_most};
ghost use Rattle.row_holes.specs.Text.{segments_most, hole_most, PushesUpToHole, PushesLine, PushesThere, PushesSeat, PushesHoles};

use crate::line::line_through;
use extend_lines::line::Lines;
use fields::raw::Field;
use holes::cols::line_cols;
use holes::draw::{push_segments, push_tagged};
use long_borders::position::advance;
use places::border::Border;
use row_lines::long::is_long;
use row_lines::seat::add_cell_text;
use seats::row::Row;
use slots::seat::Seat;
use tagged_line::line::Line;

// The segments of the border from where the text stands up to a column.
fn push_up_to_hole(out: &mut [u8], line: Line, annotation: u8, segs: &[u8], x: usize) -> Line
    requires { Within line segments_most × (length segs.now ≤ 65536) }
    ensures line_grown { LineGrown line result segments_most }
    ensures pushes_up_to_hole { PushesUpToHole out.old line annotation segs.now x out.new result }
{
    push_segments(out, line, annotation, segs, line.cols, x.min(segs.len()))
}

// The pieces of a line of a seat, filled: of a text, or of a border with its holes.
fn push_line(out: &mut [u8], line: Line, annotation: u8, field: Field<'_>, to: usize) -> Line
    requires { Within line seat_most × (to < 256) }
    ensures line_grown { LineGrown line result seat_most }
    ensures pushes_line { PushesLine out.old line annotation (whole_of field.entry) to out.new result }
{
    if field.letter == b'L' {
        return add_cell_text(out, line, annotation, field.content, to);
    }
    push_tagged(out, line, Border::of(field), to)
}

// The same behind the segments up to a column; a line without pieces brings no segments.
fn push_there(
    out: &mut [u8],
    line: Line,
    annotation: u8,
    segs: &[u8],
    field: Field<'_>,
    to: usize,
    x: usize,
) -> Line
    requires { Within line hole_most × (length segs.now ≤ 65536) × (to < 256) }
    ensures line_grown { LineGrown line result hole_most }
    ensures pushes_there { PushesThere out.old line annotation segs.now (whole_of field.entry) to x out.new result }
{
    if line_cols(field, to).is_none() {
        return line;
    }
    let begun = push_up_to_hole(out, line, annotation, segs, x);
    push_line(out, begun, annotation, field, to)
}

// The line of one seat that comes where the border is, if the seat hangs on, behind the segments up to it; where there is none, spaces.
fn push_seat(
    out: &mut [u8],
    line: Line,
    annotation: u8,
    segs: &[u8],
    seat: Seat<'_>,
    collapse: bool,
    height: usize,
    x: usize,
) -> Line
    requires { Within line hole_most × (length segs.now ≤ 65536) }
    ensures line_grown { LineGrown line result hole_most }
    ensures pushes_seat { PushesSeat out.old line annotation segs.now seat.entry collapse height x out.new result }
{
    if seat.span < 2 {
        return line;
    }
    match line_through(seat, collapse, height) {
        None => {
            let begun = push_up_to_hole(out, line, annotation, segs, x);
            begun.push_ws(out, seat.width, annotation)
        }
        Some(Ok(field)) => push_there(out, line, annotation, segs, field, seat.to, x),
        Some(Err(_)) => line,
    }
}

// The border with all holes as text on a new line, up to where it is too long.
pub fn push_holes(
    out: &mut [u8],
    lines: Lines,
    annotation: u8,
    segs: &[u8],
    row: &Row<'_>,
    collapse: bool,
    height: usize,
) -> Line
    requires { InBounds lines × (length segs.now ≤ 65536) }
    ensures out_len_unchanged { (length out.new ≡ length out.old) × LineBegun lines result 8000000 }
    ensures pushes_holes { PushesHoles out.old lines annotation segs.now row.now collapse height out.new result }
{
    let mut line = Line::new(lines.at);
    let mut x = 0;
    for seat in row.iter() {
        line = push_seat(out, line, annotation, segs, seat, collapse, height, x);
        if is_long(line) {
            return line;
        }
        x = advance(x, seat.width + 1);
    }
    push_up_to_hole(out, line, annotation, segs, segs.len())
}
