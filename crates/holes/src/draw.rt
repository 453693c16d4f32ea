// A border with holes drawn on a line: the segments between the holes, and the holes, one after the other.
ghost use Rattle.std.specs.Prelude.{◌≡◌, ◌+◌, ◌-◌, ◌*◌, ◌^◌, ◌≤◌, ◌<◌, length};
ghost use Rattle.fields.specs.List.{whole_of};
ghost use Rattle.places.specs.Border.{size};
ghost use Rattle.tagged_line.specs.Held.{Within, LineGrown};
ghost use Rattle.holes.specs.Drawing.{drawn_most, DrawsPart, PushesText, PushesPiece, DrawsHoles, PushesHoled, PushesTagged};

use crate::cols::piece_cols;
use borders::draw::Drawing;
use fields::raw::Field;
use fields::width::text_width;
use places::border::Border;
use places::holes::Holes;
use tagged_line::line::Line;

// How a hole is drawn: its text under the border's annotation, as `to_string` does, or its text or name as it stands, as
// `into_tagged_line` does. A closure in its place would have to bring the contract of `push_piece` with it.
#[derive(Clone, Copy, Debug, PartialEq, Eq)]
enum Shown {
    AsText,
    AsItStands,
}

// The segments of a border from one column up to another, Horiz past its own.
pub fn push_segments(
    out: &mut [u8],
    line: Line,
    annotation: u8,
    segments: &[u8],
    from: usize,
    to: usize,
) -> Line
    requires { (length segments.now < 2 ^ 20) × (to < 2 ^ 20) × Within line (8 + 8 * (to - from)) }
    ensures line_grown { LineGrown line result (4 + 8 * (to - from)) }
    ensures draws_part { DrawsPart out.old line annotation segments.now from to out.new result }
{
    if to <= from {
        return line;
    }
    let k = segments.len();
    let a = from.min(k);
    let b = to.min(k);
    line.push_drawn(
        out,
        annotation,
        &segments[a..b],
        to - from,
        Drawing::Segments,
    )
}

// The text of a hole under one annotation; of a name nothing.
fn push_text(out: &mut [u8], line: Line, annotation: u8, piece: Field<'_>) -> Line
    requires { Within line (4 + 3 * length piece.content.now) }
    ensures line_grown { LineGrown line result (3 + 3 * length piece.entry.content.now) }
    ensures pushes_text { PushesText out.old line annotation (whole_of piece.entry) out.new result }
{
    match piece.content {
        [_, text @ ..] if piece.letter == b'S' => {
            line.push_str(out, annotation, text, text_width(text))
        }
        _ => line,
    }
}

// The text or the name of a hole, shown one way or the other.
fn push_piece(out: &mut [u8], line: Line, annotation: u8, piece: Field<'_>, shown: Shown) -> Line
    requires { Within line (4 + 3 * length piece.content.now) }
    ensures line_grown { LineGrown line result (3 + 3 * length piece.entry.content.now) }
    ensures pushes_piece { PushesPiece out.old line annotation (whole_of piece.entry) shown out.new result }
{
    match shown {
        Shown::AsText => push_text(out, line, annotation, piece),
        Shown::AsItStands => line.add_piece(out, piece, true),
    }
}

// The walk of `to_string` and `into_tagged_line`: a border's segments under an annotation, and its holes.
fn push_holes(
    out: &mut [u8],
    line: Line,
    annotation: u8,
    border: Border<'_>,
    to: usize,
    shown: Shown,
) -> Line
    requires { (to < 65536) × Within line (drawn_most (size border) to) }
    ensures line_grown { LineGrown line result (drawn_most (size border.entry) to) }
    ensures draws_holes { DrawsHoles out.old line annotation border.entry to shown out.new result }
{
    let end = to.max(border.segments.len());
    let mut drawn = line;
    let mut pos: usize = 0;
    for hole in Holes::new(border.holes) {
        let Ok(hole) = hole else {
            return drawn;
        };
        let begin = pos.max(usize::from(hole.place).min(end));
        drawn = push_segments(out, drawn, annotation, border.segments, pos, begin);
        drawn = push_piece(out, drawn, annotation, hole.piece, shown);
        pos = begin + piece_cols(hole.piece);
    }
    push_segments(out, drawn, annotation, border.segments, pos, end)
}

// `to_string` of a border stretched to a width, under an annotation, where no holes overlap.
pub fn push_holed(out: &mut [u8], line: Line, annotation: u8, border: Border<'_>, to: usize) -> Line
    requires { (to < 65536) × Within line (drawn_most (size border) to) }
    ensures line_grown { LineGrown line result (drawn_most (size border.entry) to) }
    ensures pushes_holed { PushesHoled out.old line annotation border.entry to out.new result }
{
    push_holes(out, line, annotation, border, to, Shown::AsText)
}

// `into_tagged_line` of a border stretched to a width, pushed piece by piece: segments under the border's own annotation.
pub fn push_tagged(out: &mut [u8], line: Line, border: Border<'_>, to: usize) -> Line
    requires { (to < 65536) × Within line (drawn_most (size border) to) }
    ensures line_grown { LineGrown line result (drawn_most (size border.entry) to) }
    ensures pushes_tagged { PushesTagged out.old line border.entry to out.new result }
{
    push_holes(out, line, border.annotation, border, to, Shown::AsItStands)
}
