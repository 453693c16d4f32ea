// A word hard-wrapped, piece by piece (`flush_word_hard_wrap`).
ghost use Rattle.std.specs.Prelude.{◌+◌, ◌-◌, ◌*◌, ◌≤◌, length, drop};
ghost use Rattle.hard_wrap.specs.Hold.{Stays, Room, Grows, Wraps};

use crate::error::TooNarrow;
use crate::line::OpenLine;
use lines::encode::{MARK, run_end};
use lines::line::TaggedLine;

impl OpenLine<'_> {
    // The open line after the word from the entry `start` on, which is wrapped piece by piece; its names are dropped.
    pub fn hard_wrap(&mut self, word: &TaggedLine<'_>, start: usize) -> Result<(), TooNarrow>
        requires room { Room self.old (length word.now.items - start) (2 * (length word.now.items - start) + 2) }
        requires cols_le_width { (self.old.cols ≤ self.old.frame.width) × (start ≤ length word.now.items) }
        ensures stays { Stays self.old self.new }
        ensures grows { Grows self.old (length word.now.items - start) result self.new }
        ensures wraps { Wraps self.old (drop start word.now.items) result self.new }
    {
        let bytes = word.bytes();
        let tags = word.tags();
        let mut at = start;
        // A turn takes a piece of any number of entries: no iterator of the library goes so.
        while at < tags.len() {
            let tag = tags[at];
            let end = run_end(tags, at);
            if tag < MARK {
                self.wrap_piece(&bytes[at..end], tag)?;
            }
            at = end;
        }
        Ok(())
    }
}
