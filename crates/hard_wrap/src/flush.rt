// A line with text is closed (`flush_line`), and pending blanks are written, a space at a time ("Write any
// remaining whitespace" in `flush_word`).
ghost use Rattle.std.specs.Prelude.{◌≤◌};
ghost use Rattle.hard_wrap.specs.Hold.{Stays, Room};
ghost use Rattle.hard_wrap.specs.Steps.{LineFlushed, Flushes, Blanked, Writes};

use crate::line::OpenLine;

impl OpenLine<'_> {
    // A line with text is closed (`flush_line`). A line with entries has text, so their number decides.
    pub fn flush_line(&mut self)
        requires { Room self.old 0 1 }
        ensures stays { Stays self.old self.new }
        ensures line_flushed { LineFlushed self.old self.new }
        ensures flushes { Flushes self.old self.new }
    {
        if self.entries.is_empty() {
            self.cols = 0;
            return;
        }
        self.force_flush_line();
    }

    // One blank more, and the line is closed where it is full.
    fn write_blank(&mut self, tag: u32)
        requires room { Room self.old 1 1 }
        requires cols_le_width { self.old.cols ≤ self.old.frame.width }
        ensures stays { Stays self.old self.new }
        ensures blanked { Blanked self.old 1 self.new }
        ensures writes { Writes self.old 1 tag self.new }
    {
        self.entries.push(32, tag);
        self.cols += 1;
        if self.frame.width <= self.cols {
            self.force_flush_line();
        }
    }

    // The pending blanks.
    pub fn write_blanks(&mut self, count: usize, tag: u32)
        requires room { Room self.old count count }
        requires cols_le_width { self.old.cols ≤ self.old.frame.width }
        ensures stays { Stays self.old self.new }
        ensures blanked { Blanked self.old count self.new }
        ensures writes { Writes self.old count tag self.new }
    {
        for _written in 0..count {
            self.write_blank(tag);
        }
    }
}
