// The pieces of a line: texts and names.
ghost use Rattle.std.specs.Prelude.{◌≡◌, option_map};
ghost use Rattle.fields.specs.Sheet as sheet;
ghost use Rattle.reader.specs.Reading.{piece_seen, piece_of, read_piece, seen, text_of, name_of};

use crate::walk::{Broken, FromField, Walk};

// A piece of a line: a text with its annotation, or a name.
#[derive(Clone, Copy, Debug, PartialEq, Eq, Drop)]
pub enum Piece<'a> {
    Text { annotation: u8, text: &'a [u8] },
    Name(&'a [u8]),
}

// The pieces of a line.
pub type Pieces<'a> = Walk<'a, Piece<'a>>;

impl<'a> Piece<'a> {
    // What a field with this letter and this content is as a piece.
    pub fn read(letter: u8, content: &'a [u8]) -> Result<Self, Broken>
        ensures { seen piece_seen result ≡ piece_of letter content.now }
    {
        match letter {
            b'F' => Ok(Piece::Name(content)),
            b'S' => match content {
                [annotation, text @ ..] if !text.is_empty() => Ok(Piece::Text {
                    annotation: *annotation,
                    text,
                }),
                _ => Err(Broken),
            },
            _ => Err(Broken),
        }
    }

    // The text of a piece; a name has none.
    pub fn text(&self) -> Option<&'a [u8]>
        ensures { option_map (λ text. text.now) result ≡ text_of (piece_seen self.now) }
    {
        match *self {
            Piece::Text { text, .. } => Some(text),
            Piece::Name(_) => None,
        }
    }

    // The name of a piece; a text has none.
    pub fn name(&self) -> Option<&'a [u8]>
        ensures { option_map (λ name. name.now) result ≡ name_of (piece_seen self.now) }
    {
        match *self {
            Piece::Text { .. } => None,
            Piece::Name(name) => Some(name),
        }
    }
}

impl<'a> FromField<'a> for Piece<'a> {
    ghost View = { sheet.Piece };

    ghost view = { piece_seen };

    ghost read = { read_piece };

    fn from_field(letter: u8, content: &'a [u8]) -> Option<Result<Self, Broken>> {
        Some(Piece::read(letter, content))
    }
}
