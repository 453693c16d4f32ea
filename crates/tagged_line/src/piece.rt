// The pieces of a line's content, read field by field and laid one after the other.
ghost use Rattle.std.specs.Prelude.{◌+◌, ◌*◌, ◌^◌, ◌≤◌, ◌<◌, length};
ghost use Rattle.fields.specs.List.{whole_of};
ghost use Rattle.tagged_line.specs.Held.{Within, LineGrown};
ghost use Rattle.tagged_line.specs.Pieces.{AddsFragment, AddsTextPiece, AddsPiece, AddsPieces, Copies};

use crate::line::Line;
use fields::list::Fields;
use fields::raw::Field;
use fields::store::put_field;
use fields::width::text_width;

impl Line {
    // A name: an F field as it stands, after which no piece of text is open.
    #[inline(always)]
    #[tactic(auto, unfolding(fields::specs::Field::field))]
    fn add_fragment(self, out: &mut [u8], name: Field<'_>) -> Line
        requires { Within self (4 + 2 * length name.content.now) }
        ensures line_grown { LineGrown self result (3 + length name.entry.content.now) }
        ensures adds_fragment { AddsFragment out.old self name.entry.content.now out.new result }
    {
        let end = put_field(out, self.at, b'F', name.content);
        Line {
            at: end,
            piece: end,
            ..self
        }
    }

    // An S field's text: pushed, or put after the others as it stands. What is no S field's content adds nothing.
    #[inline(always)]
    #[tactic(auto, unfolding(fields::specs::Field::field))]
    fn add_text_piece(self, out: &mut [u8], piece: Field<'_>, joins: bool) -> Line
        requires { Within self (4 + 3 * length piece.content.now) }
        ensures line_grown { LineGrown self result (3 + 3 * length piece.entry.content.now) }
        ensures adds_text_piece { AddsTextPiece out.old self piece.entry.content.now joins out.new result }
    {
        let [annotation, text @ ..] = piece.content else {
            return self;
        };
        if text.is_empty() {
            return self;
        }
        let cols = text_width(text);
        if joins {
            return self.push_str(out, *annotation, text, cols);
        }
        Line {
            at: put_field(out, self.at, b'S', piece.content),
            piece: self.at,
            annotation: *annotation,
            cols: self.cols + cols,
            ..self
        }
    }

    // One piece of a line: a text, or a name.
    #[inline(always)]
    pub fn add_piece(self, out: &mut [u8], piece: Field<'_>, joins: bool) -> Line
        requires { Within self (4 + 3 * length piece.content.now) }
        ensures line_grown { LineGrown self result (3 + 3 * length piece.entry.content.now) }
        ensures adds_piece { AddsPiece out.old self (whole_of piece.entry) joins out.new result }
    {
        if piece.letter == b'S' {
            self.add_text_piece(out, piece, joins)
        } else {
            self.add_fragment(out, piece)
        }
    }

    // The pieces of a line's content: the first pushed, or put as it stands, and those after it.
    // With both flags it is `consume`; with the first alone a line behind its prefix.
    pub fn add_pieces(self, out: &mut [u8], content: &[u8], joins: bool, rejoins: bool) -> Line
        requires { Within self (4 + 3 * length content.now) }
        ensures line_grown { LineGrown self result (3 * length content.now) }
        ensures adds_pieces { AddsPieces out.old self content.now joins rejoins out.new result }
    {
        let mut line = self;
        let mut join = joins;
        for piece in Fields::new(content) {
            if let Ok(piece) = piece {
                line = line.add_piece(out, piece, join);
                join = rejoins;
            }
        }
        line
    }
}

// The pieces of a line's content, copied as they stand.
pub fn copy_pieces(out: &mut [u8], place: usize, content: &[u8]) -> usize
    requires { (place + length content.now < 2 ^ 62) × (length content.now < 65536) }
    ensures lower_bound { (place ≤ result) × (result ≤ place + length content.now) }
    ensures copies { Copies out.old place content.now out.new result }
{
    let mut to = place;
    for piece in Fields::new(content) {
        if let Ok(piece) = piece {
            to = put_field(out, to, piece.letter, piece.content);
        }
    }
    to
}
