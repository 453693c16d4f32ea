// The columns of a hole, of pieces, of a border with holes, and of a line that is filled.
ghost use Rattle.std.specs.Prelude.{◌≡◌, ◌+◌, ◌*◌, ◌^◌, ◌≤◌, ◌<◌, length, IfSome};
ghost use Rattle.fields.specs.List.{whole_of};
ghost use Rattle.holes.specs.Cols.{CountsPiece, CountsPieces, EndsAt, CountsText, CountsBorder, CountsLine};

use fields::list::Fields;
use fields::raw::Field;
use fields::width::text_width;
use places::border::Border;
use places::holes::Holes;

// The columns of a text or a name: a name has none.
pub fn piece_cols(piece: Field<'_>) -> usize
    ensures upper_bound { result ≤ 2 * length piece.entry.content.now }
    ensures counts_piece { CountsPiece (whole_of piece.entry) result }
{
    match piece.content {
        [_, text @ ..] if piece.letter == b'S' => text_width(text),
        _ => 0,
    }
}

// The columns of a line's pieces.
fn pieces_width(content: &[u8]) -> usize
    requires { length content.now < 65536 }
    ensures upper_bound { result ≤ 2 * length content.now }
    ensures counts_pieces { CountsPieces content.now result }
{
    let mut cols = 0;
    for piece in Fields::new(content) {
        if let Ok(piece) = piece {
            cols += piece_cols(piece);
        }
    }
    cols
}

// The column where the walk over the holes of a border that ends at a column ends.
fn walk_end(holes: &[u8], end: usize) -> usize
    requires { (length holes.now < 65536) × (end < 2 ^ 18) }
    ensures upper_bound { result ≤ end + 2 * length holes.now }
    ensures ends_at { EndsAt holes.now end result }
{
    let mut pos: usize = 0;
    for hole in Holes::new(holes) {
        let Ok(hole) = hole else {
            return pos;
        };
        let begin = pos.max(usize::from(hole.place).min(end));
        pos = begin + piece_cols(hole.piece);
    }
    pos.max(end)
}

// The columns of a text line padded to a width, if it has a piece.
fn text_cols(content: &[u8], to: usize) -> Option<usize>
    requires { (length content.now < 65536) × (to < 65536) }
    ensures cols_bound { IfSome result (λ cols. cols < 2 ^ 18) }
    ensures counts_text { CountsText content.now to result }
{
    let cols = pieces_width(content).max(to);
    (0 < content.len() + to).then_some(cols)
}

// The columns of a border stretched to a width, if it has a piece.
fn border_cols(border: Border<'_>, to: usize) -> Option<usize>
    requires { to < 65536 }
    ensures cols_bound { IfSome result (λ cols. cols < 2 ^ 18) }
    ensures counts_border { CountsBorder border.entry to result }
{
    let end = to.max(border.segments.len());
    let cols = walk_end(border.holes, end);
    (0 < border.holes.len() + end).then_some(cols)
}

// The columns of a line that is filled to a width, if it has a piece.
pub fn line_cols(line: Field<'_>, to: usize) -> Option<usize>
    requires { to < 65536 }
    ensures cols_bound { IfSome result (λ cols. cols < 2 ^ 18) }
    ensures counts_line { CountsLine (whole_of line.entry) to result }
{
    if line.letter == b'L' {
        return text_cols(line.content, to);
    }
    border_cols(Border::of(line), to)
}
