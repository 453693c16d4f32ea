// The block's lines in the store and the names that wait behind them, or what becomes of them where the block is too narrow. What a
// function here requires, its callers in this crate show.
ghost use Rattle.std.specs.Prelude.{◌≡◌, [], ◌+◌, ◌≤◌};
ghost use Rattle.fields.specs.Field.{raws};
ghost use Rattle.fields.specs.Job.{body_units};
ghost use Rattle.flush_word.specs.Keep.{CountsWithinUnits, BuffersLongEnough, BlockStays};
ghost use Rattle.render.specs.Render.{FrameSmall, FlushesWrapping, WrapsBody, WrapsUp};

use crate::body::add_fields;
use flush_word::state::WrappedBlock;
use hard_wrap::error::TooNarrow;
use hard_wrap::line::Frame;
use lines::line::TaggedLine;
use lines::text::ClosedLines;

// Where the block's lines end in the store, with the names that wait behind them, and the number of the lines.
#[derive(Clone, Copy, Debug, PartialEq, Eq)]
pub struct End {
    pub place: usize,
    pub lines: usize,
}

// `flush_wrapping`: the last word, a line with text, and behind the lines the names that are left in the word.
fn flush_wrapping(block: &mut WrappedBlock<'_>) -> Result<End, TooNarrow>
    requires { CountsWithinUnits block.old × BuffersLongEnough block.old }
    ensures stays { BlockStays block.old block.new }
    ensures flushes_wrapping { FlushesWrapping block.old result block.new }
{
    block.flush_word()?;
    block.line.flush_line();
    block.line.text.put_word(&block.word.entries);
    Ok(End {
        place: block.line.text.place,
        lines: block.line.text.lines,
    })
}

// All fields of a job's body, and then the end of the block.
fn wrap_body(block: &mut WrappedBlock<'_>, body: &[u8]) -> Result<End, TooNarrow>
    requires counts_within_units { CountsWithinUnits block.old × BuffersLongEnough block.old }
    requires body_bound { block.old.used + body_units (raws body.now) ≤ 4096 }
    ensures stays { BlockStays block.old block.new }
    ensures wraps_body { WrapsBody block.old body.now result block.new }
{
    add_fields(block, body)?;
    flush_wrapping(block)
}

// A body from the new block on, the store's first five bytes kept for the head; the store is given back, to say what the lines left there.
fn wrap_fields<'a>(
    frame: Frame,
    body: &[u8],
    line: TaggedLine<'a>,
    word: TaggedLine<'a>,
    out: &'a mut [u8],
) -> (Result<End, TooNarrow>, &'a mut [u8])
    requires small { FrameSmall frame × (body_units (raws body.now) ≤ 4096) }
    requires line { (line.items ≡ []) × (4608 ≤ line.room) }
    requires word { (word.items ≡ []) × (4096 ≤ word.room) }
    ensures same_store { result.1.ghost_name ≡ out.entry.ghost_name }
    ensures wraps_up { WrapsUp frame body.now out.old result.0 result.1.now }
{
    let text = ClosedLines {
        out,
        place: 5,
        lines: 0,
    };
    let mut block = WrappedBlock::new(frame, line, word, text);
    let end = wrap_body(&mut block, body);
    let store = block.line.text.out;
    (end, store)
}

// The buffers of the line and of the word.
pub fn wrap_lines(frame: Frame, body: &[u8], out: &mut [u8]) -> Result<End, TooNarrow>
    requires { FrameSmall frame × (body_units (raws body.now) ≤ 4096) }
    ensures { WrapsUp frame body.now out.old result out.new }
{
    let mut lb = [0u8; 4608];
    let mut lt = [0u32; 4608];
    let mut wb = [0u8; 4096];
    let mut wt = [0u32; 4096];
    let line = TaggedLine::new(&mut lb, &mut lt);
    let word = TaggedLine::new(&mut wb, &mut wt);
    let (end, _store) = wrap_fields(frame, body, line, word, out);
    end
}
