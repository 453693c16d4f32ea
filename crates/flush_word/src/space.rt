// Pending blanks where a word does not fit ("Not enough space" in `flush_word`).
ghost use Rattle.std.specs.Prelude.{◌<◌};
ghost use Rattle.flush_word.specs.Keep.{CountsWithinUnits, BuffersLongEnough, BlockStays, Dropping, KeepsPre, Drops};

use crate::state::{NO_BLANKS, WrappedBlock};
use crate::trim::trim_line;
use crate::white_space::WhiteSpace;

impl WrappedBlock<'_> {
    // Pre: what exceeds the rest of the line is carried on where the blanks reach it; else they are written.
    fn keep_pre(&mut self)
        requires counts_within_units { CountsWithinUnits self.old × BuffersLongEnough self.old }
        requires count_nonzero { 0 < self.old.blanks.count }
        ensures stays { BlockStays self.old self.new }
        ensures dropping { Dropping self.old self.new }
        ensures keeps_pre { KeepsPre self.old self.new }
    {
        let blanks = self.blanks;
        let left = self.line.frame.width - self.line.cols;
        if left <= blanks.count {
            self.blanks.count = blanks.count - left;
            return;
        }
        self.line.entries.push_ws(blanks.count, blanks.tag);
        self.line.cols += blanks.count;
        self.blanks = NO_BLANKS;
    }

    // What becomes of the line and the blanks, by the last blank's mode; the word's front is trimmed apart.
    pub(crate) fn drop_blanks(&mut self)
        requires { CountsWithinUnits self.old × BuffersLongEnough self.old }
        ensures stays { BlockStays self.old self.new }
        ensures dropping { Dropping self.old self.new }
        ensures drops { Drops self.old self.new }
    {
        if self.blanks.count == 0 {
            self.blanks = NO_BLANKS;
            return;
        }
        match WhiteSpace::of_tag(self.blanks.tag) {
            WhiteSpace::Normal => self.blanks = NO_BLANKS,
            WhiteSpace::Pre => self.keep_pre(),
            WhiteSpace::PreWrap => {
                trim_line(&mut self.line);
                self.blanks = NO_BLANKS;
            }
        }
    }
}
