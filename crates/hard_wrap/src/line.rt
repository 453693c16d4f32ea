// The open line: what never changes, its entries and columns, the lines closed before it, and its end (`pad_to`, `force_flush_line`).
ghost use Rattle.hard_wrap.specs.Hold.{Stays, Room, Padded, Emptied, ForceFlushes};

use lines::line::TaggedLine;
use lines::text::ClosedLines;

// What a W field says of the block, the default annotation as a tag.
#[derive(Clone, Copy, Debug, PartialEq, Eq)]
pub struct Frame {
    pub width: usize,
    pub pad: bool,
    pub overflow: bool,
    pub default_tag: u32,
}

// The open line and its columns (`line` and its `len`), and the lines so far.
#[derive(Drop)]
pub struct OpenLine<'a> {
    pub frame: Frame,
    pub entries: TaggedLine<'a>,
    pub cols: usize,
    pub text: ClosedLines<'a>,
}

impl OpenLine<'_> {
    // Spaces of the default annotation up to the width, where the block pads (`pad_to`).
    #[tactic(auto, unfolding(crate::specs::Hold::padded))]
    fn pad_to(&mut self)
        requires { Room self.old 0 1 }
        ensures stays { Stays self.old self.new }
        ensures padded { Padded self.old self.new }
    {
        if self.frame.pad {
            let missing = self.frame.width.saturating_sub(self.cols);
            self.entries.push_ws(missing, self.frame.default_tag);
        }
    }

    // The open line goes to the closed ones, and the next one is open and empty (`force_flush_line`).
    pub fn force_flush_line(&mut self)
        requires { Room self.old 0 1 }
        ensures stays { Stays self.old self.new }
        ensures emptied { Emptied self.old self.new }
        ensures force_flushes { ForceFlushes self.old self.new }
    {
        self.pad_to();
        self.text.push(&self.entries);
        self.entries.clear();
        self.cols = 0;
    }
}
