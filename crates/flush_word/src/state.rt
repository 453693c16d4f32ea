// The block (`WrappedBlock`): the open line with the lines closed before it, the word, and what stands between them.
ghost use Rattle.std.specs.Prelude.{◌≡◌, false, []};
ghost use Rattle.flush_word.specs.Keep.{new};

use hard_wrap::line::{Frame, OpenLine};
use lines::line::TaggedLine;
use lines::text::ClosedLines;

// The word still open: its entries, its columns (`wordlen`), and whether it has text (`!word.is_empty()`).
#[derive(Drop)]
pub struct Word<'a> {
    pub entries: TaggedLine<'a>,
    pub cols: usize,
    pub has_text: bool,
}

// Pending blanks and their tag (`wslen`, `spacetag`); the tag says nothing while there are none.
#[derive(Clone, Copy, Debug, PartialEq, Eq)]
pub struct Blanks {
    pub count: usize,
    pub tag: u32,
}

// No blanks.
pub const NO_BLANKS: Blanks = Blanks { count: 0, tag: 0 };

// The open line, the word, the blanks before it, `pre_wrapped`, and how many of the job's units are behind, at most 4,096.
#[derive(Drop)]
pub struct WrappedBlock<'a> {
    pub line: OpenLine<'a>,
    pub word: Word<'a>,
    pub blanks: Blanks,
    pub wrapped: bool,
    pub used: usize,
}

impl Word<'_> {
    // A word of nothing.
    pub fn clear(&mut self)
        ensures items { self.new.entries.items ≡ [] }
        ensures room { self.new.entries.room ≡ self.old.entries.room }
        ensures cols { self.new.cols ≡ 0 }
        ensures has_text { self.new.has_text ≡ false }
    {
        self.entries.clear();
        self.cols = 0;
        self.has_text = false;
    }
}

impl<'a> WrappedBlock<'a> {
    // `new`: no blanks and no units yet. Callers show that the line and the word have no entries.
    pub fn new(
        frame: Frame,
        line: TaggedLine<'a>,
        word: TaggedLine<'a>,
        text: ClosedLines<'a>,
    ) -> WrappedBlock<'a>
        ensures { result ≡ new frame line.entry word.entry text.entry }
    {
        WrappedBlock {
            line: OpenLine {
                frame,
                entries: line,
                cols: 0,
                text,
            },
            word: Word {
                entries: word,
                cols: 0,
                has_text: false,
            },
            blanks: NO_BLANKS,
            wrapped: false,
            used: 0,
        }
    }
}
