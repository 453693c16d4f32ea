// A run of plain characters goes to the word at once: none of them ends a word, and in Pre it is taken up to the width with
// the annotation in use, and past the width with the continued one.
ghost use Rattle.std.specs.Prelude.{◌≡◌, ◌+◌, ◌<◌, ◌≤◌, length};
ghost use Rattle.flush_word.specs.Keep.{CountsWithinUnits, BuffersLongEnough, BlockStays};
ghost use Rattle.add_text.specs.Walks.{RunSmall, WalkedSmall};
ghost use Rattle.add_text.specs.Runs.{Takes, AddsPlain};

use crate::text::Run;
use add_chars::chars::push_chars;
use characters::plain::plain_run;
use flush_word::state::WrappedBlock;
use flush_word::white_space::WhiteSpace;

// How plain characters are taken: at most so many bytes, the annotation, and `pre_wrapped` after them.
#[derive(Clone, Copy, Debug, PartialEq, Eq)]
pub struct Take {
    pub most: usize,
    pub ann: u32,
    pub wrapped: bool,
}

// The annotation in use, and the bytes of the text that are behind.
#[derive(Clone, Copy, Debug, PartialEq, Eq)]
pub struct Past {
    pub ann: u32,
    pub len: usize,
}

// In Pre up to the width, or past it; in other modes all there are, of 4,096 at most.
fn take_of(block: &WrappedBlock<'_>, run: Run, ann: u32) -> Take
    requires { CountsWithinUnits block.now × BuffersLongEnough block.now × RunSmall run × (ann < 256) }
    ensures { Takes block.now run ann result }
{
    let keeping = Take {
        most: 4096,
        ann,
        wrapped: block.wrapped,
    };
    if run.mode != WhiteSpace::Pre {
        return keeping;
    }
    let reached = block.line.cols + block.blanks.count + block.word.cols;
    let left = block.line.frame.width.saturating_sub(reached);
    if left == 0 {
        return Take {
            most: 4096,
            ann: run.wrap,
            wrapped: true,
        };
    }
    Take {
        most: left,
        ..keeping
    }
}

// The plain characters that a text starts with.
pub fn add_plain(block: &mut WrappedBlock<'_>, run: Run, ann: u32, text: &[u8]) -> Past
    requires counts_within_units { CountsWithinUnits block.old × BuffersLongEnough block.old }
    requires run_small { RunSmall run × (ann < 256) × (block.old.used + length text.now ≤ 4096) }
    ensures stays { BlockStays block.old block.new }
    ensures len_in_bounds { (result.len ≤ length text.now) × WalkedSmall block.new result.ann (block.old.used + result.len) }
    ensures adds_plain { AddsPlain block.old run ann text.now result block.new }
{
    let take = take_of(block, run, ann);
    let end = text.len().min(take.most);
    let plain = plain_run(&text[..end], false);
    let len = plain.len;
    if len == 0 {
        return Past { ann, len: 0 };
    }
    let tag = run.mode.tag(take.ann);
    push_chars(block, &text[..len], plain.cols, tag, take.wrapped);
    Past { ann: take.ann, len }
}
