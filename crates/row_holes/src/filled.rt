// The pieces of a line that is filled to a width with spaces, one after the other.
ghost use Rattle.std.specs.Prelude.{◌≡◌, ◌<◌, length};

use fields::list::split_field;
use fields::raw::Field;
use holes::cols::piece_cols;

// A text or a name, the spaces that it takes in behind its text, and the columns of both.
#[derive(Clone, Copy)]
pub struct Part<'a> {
    pub field: Field<'a>,
    pub spaces: usize,
    pub cols: usize,
    pub ghost few: { spaces < 131072 },
    pub ghost narrow: { cols < 1048576 },
}

// The pieces that are left, the columns that are missing up to the width, and the annotation of the spaces, in a slice.
#[derive(Clone, Copy)]
pub struct Filled<'a> {
    rest: &'a [u8],
    missing: usize,
    annotation: &'a [u8],
    ghost low: { missing < 131072 },
    ghost one: { length annotation.now ≡ 1 },
}

impl<'a> Filled<'a> {
    ghost use Rattle.std.specs.Prelude.{◌≡◌, ◌≤◌, ◌<◌, length};
    ghost use Rattle.row_holes.specs.Filled.{TakesSpaces};

    // The pieces of a line, filled to a width.
    pub fn new(pieces: &'a [u8], to: usize, annotation: &'a [u8]) -> Filled<'a>
        requires { (to < 131072) × (length annotation.now ≡ 1) }
        ensures { (result.rest.now ≡ pieces.now) × (result.missing ≡ to) × (result.annotation.now ≡ annotation.now) }
    {
        Filled {
            rest: pieces,
            missing: to,
            annotation,
        }
    }

    // The spaces that a piece takes in: the last one, a text under their annotation, takes all.
    fn taken(&self, last: bool, field: Field<'_>, spaces: usize) -> usize
        ensures upper_bound { result ≤ spaces }
        ensures takes_spaces { TakesSpaces last field.entry self.now.annotation.now spaces result }
    {
        if last && field.letter == b'S' && field.content.starts_with(self.annotation) {
            spaces
        } else {
            0
        }
    }
}

impl<'a> Iterator for Filled<'a> {
    ghost use Rattle.std.specs.Iterator.{at_most};
    ghost use Rattle.row_holes.specs.Filled.{filled_measure, NextPart};

    type Item = Part<'a>;

    ghost next_gives = { NextPart };

    ghost remaining = { λ f. at_most (filled_measure f) };

    #[inline(always)]
    fn next(&mut self) -> Option<Part<'a>> {
        let Some((field, rest)) = split_field(self.rest) else {
            // Behind all pieces stand the spaces alone: a text of none that takes them in.
            if !self.rest.is_empty() || self.missing == 0 {
                return None;
            }
            let spaces = self.missing;
            self.missing = 0;
            return Some(Part {
                field: Field {
                    letter: b'S',
                    content: self.annotation,
                },
                spaces,
                cols: spaces,
            });
        };
        let cols = piece_cols(field);
        let missing = self.missing.saturating_sub(cols);
        let spaces = self.taken(rest.is_empty(), field, missing);
        self.rest = rest;
        self.missing = missing - spaces;
        Some(Part {
            field,
            spaces,
            cols: cols + spaces,
        })
    }
}
