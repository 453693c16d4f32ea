// A piece of a word over lines (a turn of the loop over strings in `flush_word_hard_wrap`): `wrap_piece` has the
// Rust's `while w - wpos > lineleft` and in it the walk over the characters, and `wrap_line` is what is done where
// the walk stops.
ghost use Rattle.std.specs.Prelude.{◌+◌, ◌-◌, ◌*◌, ◌^◌, ◌≤◌, ◌<◌, length};
ghost use Rattle.hard_wrap.specs.Hold.{Stays, Longer, PutsText, Room, Emptied, ClosesWith, Forward, WrapsLine, Grows, Pieces};

use crate::error::TooNarrow;
use crate::glyph::{glyph, plain_within, width_of};
use crate::line::OpenLine;

// How many bytes and columns of a piece went on a line.
#[derive(Clone, Copy, Debug, PartialEq, Eq)]
struct Step {
    split: usize,
    used: usize,
}

impl OpenLine<'_> {
    // Bytes of one tag, of so many columns, go on the line (`push`).
    fn put_text(&mut self, part: &[u8], used: usize, tag: u32)
        requires room { length self.old.entries.items + length part.now ≤ self.old.entries.room }
        requires cols { self.old.cols + used < 2 ^ 62 }
        ensures stays { Stays self.old self.new }
        ensures longer { Longer self.old (length part.now) used self.new }
        ensures puts_text { PutsText self.old part.now used tag self.new }
    {
        self.entries.push_str(part, tag);
        self.cols += used;
    }

    // A part of a piece goes on the line, and that is closed: one turn of `flush_word_hard_wrap` but for the split.
    fn close_with(&mut self, part: &[u8], used: usize, tag: u32)
        requires room { Room self.old (length part.now) 1 }
        requires cols_le_width { (self.old.cols ≤ self.old.frame.width) × (used < 512) }
        ensures stays { Stays self.old self.new }
        ensures emptied { Emptied self.old self.new }
        ensures closes_with { ClosesWith self.old part.now used tag self.new }
    {
        self.put_text(part, used, tag);
        self.force_flush_line();
    }

    // One line of a piece that does not fit: what is before the split place goes on it, or a character that no line takes.
    fn wrap_line(
        &mut self,
        rest: &[u8],
        split: usize,
        used: usize,
        tag: u32,
    ) -> Result<Step, TooNarrow>
        requires room { Room self.old (length rest.now) 1 }
        requires cols_le_width { (self.old.cols ≤ self.old.frame.width) × (0 < length rest.now) × (split ≤ length rest.now) × (used ≤ self.old.frame.width - self.old.cols) }
        ensures stays { Stays self.old self.new }
        ensures forward { Forward self.old (length rest.now) result self.new }
        ensures wraps_line { WrapsLine self.old rest.now split used tag result self.new }
    {
        if split == 0 {
            if self.cols == 0 {
                if self.frame.overflow {
                    let g = glyph(rest);
                    self.close_with(&rest[..g.len], g.cols, tag);
                    return Ok(Step {
                        split: g.len,
                        used: g.cols,
                    });
                }
                return Err(TooNarrow);
            }
        }
        self.close_with(&rest[..split], used, tag);
        Ok(Step { split, used })
    }

    // A piece: while what is left of it does not fit, its characters are walked up to the first that does not and the line is closed there;
    // the rest goes on the open line.
    pub(crate) fn wrap_piece(&mut self, piece: &[u8], tag: u32) -> Result<(), TooNarrow>
        requires room { Room self.old (length piece.now) (2 * length piece.now + 1) }
        requires cols_le_width { self.old.cols ≤ self.old.frame.width }
        ensures stays { Stays self.old self.new }
        ensures grows { Grows self.old (length piece.now) result self.new }
        ensures pieces { Pieces self.old piece.now tag result self.new }
    {
        let w = width_of(piece);
        let mut wpos = 0;
        let mut bpos = 0;
        // A turn is a line; the walk over its characters is left where the first does not fit.
        while bpos < piece.len() && wpos + (self.frame.width - self.cols) < w {
            let rest = &piece[bpos..];
            let left = self.frame.width - self.cols;
            let mut idx = 0;
            let mut used = 0;
            let split = 'walk: loop {
                let run = plain_within(&rest[idx..], left - used);
                used += run.cols;
                idx += run.len;
                if idx >= rest.len() {
                    break 'walk idx; // all of it fits
                }
                let g = glyph(&rest[idx..]);
                let next = idx + g.len;
                if left - used < g.cols {
                    break 'walk idx; // the first that does not fit
                }
                used += g.cols;
                idx = next;
            };
            let step = self.wrap_line(rest, split, used, tag)?;
            bpos += step.split;
            wpos += step.used;
        }
        if bpos < piece.len() {
            let used = w.saturating_sub(wpos);
            self.put_text(&piece[bpos..], used, tag);
        }
        Ok(())
    }
}
