// What a seat gives to a line of the row. What a function here requires, its callers show.
ghost use Rattle.std.specs.Prelude.{◌≡◌, ◌≤◌, ◌<◌, length};
ghost use Rattle.tagged_line.specs.Held.{Within, LineGrown};
ghost use Rattle.row_lines.specs.Left.{last};
ghost use Rattle.row_lines.specs.Seat.{seat_most, AddsCellText, leaves_pattern, AddsSeat, AddsEdge, OpensSeat};

use borders::draw::Drawing;
use fields::list::split_field;
use fields::raw::Field;
use holes::draw::push_holed;
use places::border::Border;
use rows::RenderOptions;
use slots::seat::Seat;
use tagged_line::line::Line;

// The pieces of a text line of a seat, and what fills it.
pub fn add_cell_text(out: &mut [u8], line: Line, annotation: u8, content: &[u8], to: usize) -> Line
    requires { Within line seat_most × (length content.now < 65536) × (to < 256) }
    ensures line_grown { LineGrown line result seat_most }
    ensures adds_cell_text { AddsCellText out.old line annotation content.now to out.new result }
{
    let before = line.cols;
    let next = line.add_pieces(out, content, true, true);
    let used = next.cols - before;
    if used < to {
        return next.push_ws(out, to - used, annotation);
    }
    next
}

// A line with nothing behind it is the last border of a seat, which collapsing takes off.
pub fn leaves_pattern(collapse: bool, line: Field<'_>, rest: &[u8]) -> bool
    ensures { result ≡ leaves_pattern collapse line.entry.letter rest.now }
{
    collapse && rest.is_empty() && line.letter != b'L'
}

// What a seat gives to a line of the row, from its next line on, and the lines behind that; with collapsing a last border leaves its pattern,
// the lines above it, which fills the seat from there on.
pub fn add_seat<'a>(
    out: &mut [u8],
    line: Line,
    options: RenderOptions,
    seat: Seat<'_>,
    left: &'a [u8],
    collapse: bool,
) -> (Line, &'a [u8])
    requires { Within line seat_most × (length left.now < 65536) }
    ensures line_grown { LineGrown line result.0 seat_most }
    ensures shorter { length result.1.now ≤ length left.entry.now }
    ensures ends { result.1.now ≡ last (length result.1.now) left.entry.now }
    ensures adds_seat { AddsSeat out.old line options seat.entry.width seat.entry.to left.entry.now collapse out.new result.0 result.1.now }
{
    let annotation = options.annotation;
    let Some((first, rest)) = split_field(left) else {
        return (line.push_ws(out, seat.width, annotation), left);
    };
    if first.letter == b'L' {
        let line = add_cell_text(out, line, annotation, first.content, seat.to);
        return (line, rest);
    }
    let border = Border::of(first);
    if leaves_pattern(collapse, first, rest) {
        let segs = border.segments;
        let line = line.push_drawn(out, annotation, segs, seat.to, Drawing::LinesAbove);
        return (line, left);
    }
    (push_holed(out, line, annotation, border, seat.to), rest)
}

// Between two seats: │, or a space with borders off.
fn add_edge(out: &mut [u8], line: Line, options: RenderOptions) -> Line
    requires { Within line 16 }
    ensures line_grown { LineGrown line result 16 }
    ensures adds_edge { AddsEdge out.old line options out.new result }
{
    if options.borders {
        return line.push_bar(out, options.annotation);
    }
    line.push_str(out, options.annotation, b" ", 1)
}

// Before the k-th seat stands an edge, unless it is the first.
#[tactic(auto, using(crate::proofs::SeatLaws::opens_first, crate::proofs::SeatLaws::opens_later))]
pub fn open_seat(out: &mut [u8], line: Line, options: RenderOptions, k: usize) -> Line
    requires { Within line 16 }
    ensures line_grown { LineGrown line result 16 }
    ensures opens_seat { OpensSeat out.old line options k out.new result }
{
    if k == 0 {
        return line;
    }
    add_edge(out, line, options)
}
