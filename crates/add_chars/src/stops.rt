// LF and tab where white space is kept.
ghost use Rattle.std.specs.Prelude.{◌≡◌, ◌+◌, ◌<◌};
ghost use Rattle.hard_wrap.specs.Hold.{Stays};
ghost use Rattle.flush_word.specs.Keep.{CountsWithinUnits, BlockStays};
ghost use Rattle.add_chars.specs.Chars.{LineLongEnough, Newlines, TabFits, TabMoved, Turns, Tabbed, Tabs, Tabbing};

use flush_word::state::{NO_BLANKS, WrappedBlock};
use hard_wrap::line::OpenLine;

// '\n': the line is closed, even an empty one, and pending blanks are gone.
pub fn newline(block: &mut WrappedBlock<'_>)
    requires counts_within_units { CountsWithinUnits block.old × LineLongEnough block.old.line }
    requires used_bound { block.old.used < 4096 }
    ensures stays { BlockStays block.old block.new }
    ensures word_stays { block.new.word ≡ block.old.word }
    ensures counts_within_units_2 { CountsWithinUnits block.new × (block.new.used ≡ block.old.used + 1) }
    ensures newlines { Newlines block.old block.new }
{
    block.line.force_flush_line();
    block.blanks = NO_BLANKS;
    block.wrapped = false;
    block.used += 1;
}

// Where a tab stands: the position, and whether a space was written.
#[derive(Clone, Copy, Debug, PartialEq, Eq)]
pub struct TabAt {
    pub pos: usize,
    pub one: bool,
}

// One turn of a tab's loop: at the block's edge the line is closed and the position is 0; else a space.
fn tab_turn(line: &mut OpenLine<'_>, at: TabAt, tag: u32) -> TabAt
    requires { TabFits line.old at 1 }
    ensures stays { Stays line.old line.new }
    ensures tab_moved { TabMoved line.old line.new result }
    ensures turns { Turns line.old at tag line.new result }
{
    if line.frame.width <= at.pos {
        line.flush_line();
        return TabAt { pos: 0, ..at };
    }
    line.entries.push(32, tag);
    line.cols += 1;
    TabAt {
        pos: at.pos + 1,
        one: true,
    }
}

// '\t' from a position: at least one space, to the next multiple of 8. No tab takes more than ten turns.
fn tab_line(line: &mut OpenLine<'_>, start: TabAt, tag: u32)
    requires { TabFits line.old start 10 }
    ensures stays { Stays line.old line.new }
    ensures tabbed { Tabbed line.old line.new }
    ensures tabs { Tabs line.old start tag line.new }
{
    let mut at = start;
    for _turn in 0..10usize {
        if at.pos % 8 == 0 && at.one {
            return;
        }
        at = tab_turn(line, at, tag);
    }
}

// '\t' after the word is flushed: the position is counted over line, word and pending blanks.
pub fn tab(block: &mut WrappedBlock<'_>, tag: u32)
    requires counts_within_units { CountsWithinUnits block.old × LineLongEnough block.old.line }
    requires used_bound { block.old.used < 4096 }
    ensures stays { BlockStays block.old block.new }
    ensures word_stays { block.new.word ≡ block.old.word }
    ensures counts_within_units_2 { CountsWithinUnits block.new × (block.new.used ≡ block.old.used + 1) }
    ensures tabbing { Tabbing block.old tag block.new }
{
    let start = TabAt {
        pos: block.line.cols + block.word.cols + block.blanks.count,
        one: false,
    };
    tab_line(&mut block.line, start, tag);
    block.used += 1;
}
