// The lines so far (`text` of `WrappedBlock`): they stand closed in the lent store, one after the other.
ghost use Rattle.std.specs.Prelude.{◌≡◌, ◌+◌, ◌*◌, ◌^◌, ◌≤◌, ◌<◌, length};
ghost use Rattle.fields.specs.Store.{Wrote};
ghost use Rattle.lines.specs.Encode.{content, line_field};

use crate::encode::{put_line, put_pieces};
use crate::line::TaggedLine;

// The store, the place in it past the lines, and their number.
#[derive(Drop)]
pub struct ClosedLines<'a> {
    pub out: &'a mut [u8],
    pub place: usize,
    pub lines: usize,
}

impl ClosedLines<'_> {
    // A line more (`self.text.push`).
    pub fn push(&mut self, line: &TaggedLine<'_>)
        requires short { length line.now.items < 13107 }
        requires place { self.old.place + 5 * length line.now.items + 3 < 2 ^ 62 }
        requires lines { self.old.lines ≤ self.old.place }
        ensures same_store { self.new.out.ghost_name ≡ self.old.out.ghost_name }
        ensures lower_bound { self.old.place + 3 ≤ self.new.place }
        ensures upper_bound { self.new.place ≤ self.old.place + 3 + 5 * length line.now.items }
        ensures lines { self.new.lines ≡ self.old.lines + 1 }
        ensures wrote { Wrote self.old.out.now self.old.place (line_field line.now.items) self.new.out.now self.new.place }
    {
        self.place = put_line(self.out, self.place, line.bytes(), line.tags());
        self.lines += 1;
    }

    // Behind the lines the pieces of a word; where it has no text these are the F fields of its names.
    pub fn put_word(&mut self, word: &TaggedLine<'_>)
        requires short { length word.now.items < 65535 }
        requires place { self.old.place + 5 * length word.now.items < 2 ^ 62 }
        ensures same_store { self.new.out.ghost_name ≡ self.old.out.ghost_name }
        ensures lines { self.new.lines ≡ self.old.lines }
        ensures wrote { Wrote self.old.out.now self.old.place (content word.now.items) self.new.out.now self.new.place }
    {
        self.place = put_pieces(self.out, self.place, word.bytes(), word.tags());
    }
}
