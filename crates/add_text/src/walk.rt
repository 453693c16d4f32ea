// One character of `add_text`'s walk: what it does to the block, and the annotation in use after it.
ghost use Rattle.std.specs.Prelude.{◌≡◌, true, ◌+◌, ◌<◌, ◌≤◌, length};
ghost use Rattle.std.proofs.Math.Option.{some};
ghost use Rattle.characters.specs.Columns.{width_of};
ghost use Rattle.flush_word.specs.Keep.{CountsWithinUnits, BuffersLongEnough, BlockStays, StaysWithinUnits};
ghost use Rattle.add_chars.specs.Chars.{AmongUnits};
ghost use Rattle.add_text.specs.Walks.{RunSmall, Ready, WalkedSmall, WalkSmall, CharIs};
ghost use Rattle.add_text.specs.Walks.{AddsNewline, AddsTab, AddsKept, AddsWordChar, BreaksWord, AddsBlank, PutsChar, AddsChar};

use crate::text::Run;
use add_chars::chars::{collapse, keep_blank, push_word};
use add_chars::stops::{newline, tab};
use characters::columns::{Columns, columns_of};
use characters::whitespace::{always_takes_space, is_wordbreak_point};
use flush_word::state::WrappedBlock;
use flush_word::white_space::WhiteSpace;
use hard_wrap::error::TooNarrow;

// LF: the word is flushed, the line closed, and the first annotation is back.
fn add_newline(block: &mut WrappedBlock<'_>, run: Run) -> Result<u32, TooNarrow>
    requires counts_within_units { CountsWithinUnits block.old × BuffersLongEnough block.old }
    requires run_small { RunSmall run × (block.old.used < 4096) }
    ensures stays { BlockStays block.old block.new }
    ensures walk_small { WalkSmall (block.old.used + 1) result block.new }
    ensures adds_newline { AddsNewline block.old run result block.new }
{
    block.flush_word()?;
    newline(block);
    Ok(run.main)
}

// A tab: the word is flushed, and spaces go to the next stop.
fn add_tab(block: &mut WrappedBlock<'_>, mode: WhiteSpace, ann: u32) -> Result<u32, TooNarrow>
    requires { Ready block.old ann 1 }
    ensures stays { BlockStays block.old block.new }
    ensures walk_small { WalkSmall (block.old.used + 1) result block.new }
    ensures adds_tab { AddsTab block.old mode ann result block.new }
{
    block.flush_word()?;
    tab(block, mode.tag(ann));
    Ok(ann)
}

// A blank that is neither LF nor tab where white space is kept; a control is dropped.
fn add_kept(block: &mut WrappedBlock<'_>, mode: WhiteSpace, ann: u32, part: &[u8], code: u32)
    requires ready { Ready block.old ann (length part.now) }
    requires char_is { CharIs part.now code }
    ensures stays { BlockStays block.old block.new }
    ensures walked_small { WalkedSmall block.new ann (block.old.used + length part.now) }
    ensures adds_kept { AddsKept block.old mode ann code block.new }
{
    match columns_of(code) {
        Columns::Cols(cols) => keep_blank(block, part, usize::from(cols), mode.tag(ann)),
        Columns::Control | Columns::OffList => {}
    }
}

// A character of a word, of so many columns; in Pre, past the width, it takes the continued annotation.
fn add_cols(
    block: &mut WrappedBlock<'_>,
    run: Run,
    ann: u32,
    part: &[u8],
    code: u32,
    cols: usize,
) -> u32
    requires ready { Ready block.old ann (length part.now) }
    requires char_is { CharIs part.now code × RunSmall run × AmongUnits block.old (length part.now) cols }
    ensures stays { BlockStays block.old block.new }
    ensures walked_small { WalkedSmall block.new result (block.old.used + length part.now) }
    ensures adds_word_char { AddsWordChar block.old run ann code (some cols) result block.new }
{
    if run.mode == WhiteSpace::Pre {
        let reached = block.line.cols + block.blanks.count + (block.word.cols + cols);
        if block.line.frame.width < reached {
            push_word(block, part, cols, run.mode.tag(run.wrap));
            block.wrapped = true;
            return run.wrap;
        }
    }
    push_word(block, part, cols, run.mode.tag(ann));
    ann
}

// A character of a word; a control is dropped.
fn add_word_char(block: &mut WrappedBlock<'_>, run: Run, ann: u32, part: &[u8], code: u32) -> u32
    requires ready { Ready block.old ann (length part.now) }
    requires char_is { CharIs part.now code × RunSmall run }
    ensures stays { BlockStays block.old block.new }
    ensures walked_small { WalkedSmall block.new result (block.old.used + length part.now) }
    ensures adds_word_char { AddsWordChar block.old run ann code (width_of code) result block.new }
{
    match columns_of(code) {
        Columns::Cols(cols) => add_cols(block, run, ann, part, code, usize::from(cols)),
        Columns::Control | Columns::OffList => ann,
    }
}

// A break point closes a word with columns, but not in Pre.
fn break_word(block: &mut WrappedBlock<'_>, mode: WhiteSpace, code: u32) -> Result<(), TooNarrow>
    requires { CountsWithinUnits block.old × BuffersLongEnough block.old }
    ensures stays { BlockStays block.old block.new }
    ensures stays_within_units { StaysWithinUnits block.old.used result block.new }
    ensures breaks_word { BreaksWord block.old mode code result block.new }
{
    if block.word.cols == 0 || mode == WhiteSpace::Pre {
        return Ok(());
    }
    if is_wordbreak_point(code) {
        return block.flush_word();
    }
    Ok(())
}

// White space, but for U+00A0.
fn add_blank(
    block: &mut WrappedBlock<'_>,
    run: Run,
    ann: u32,
    code: u32,
    part: &[u8],
) -> Result<u32, TooNarrow>
    requires ready { Ready block.old ann (length part.now) }
    requires char_is { CharIs part.now code × RunSmall run }
    ensures stays { BlockStays block.old block.new }
    ensures walk_small { WalkSmall (block.old.used + length part.now) result block.new }
    ensures adds_blank { AddsBlank block.old run ann code result block.new }
{
    match (run.mode, code) {
        (WhiteSpace::Normal, _) => collapse(block, run.mode.tag(ann)),
        (_, 0x0A) => return add_newline(block, run),
        (_, 0x09) => return add_tab(block, run.mode, ann),
        _ => add_kept(block, run.mode, ann, part, code),
    }
    Ok(ann)
}

// The character itself, the word before it closed or not.
fn put_char(
    block: &mut WrappedBlock<'_>,
    run: Run,
    ann: u32,
    code: u32,
    part: &[u8],
) -> Result<u32, TooNarrow>
    requires ready { Ready block.old ann (length part.now) }
    requires char_is { CharIs part.now code × RunSmall run }
    ensures stays { BlockStays block.old block.new }
    ensures walk_small { WalkSmall (block.old.used + length part.now) result block.new }
    ensures puts_char { PutsChar block.old run ann code result block.new }
{
    if code == 0x200B {
        return Ok(ann);
    }
    if always_takes_space(code) {
        return Ok(add_word_char(block, run, ann, part, code));
    }
    add_blank(block, run, ann, code, part)
}

// One character, and the annotation in use after it.
pub fn add_char(
    block: &mut WrappedBlock<'_>,
    run: Run,
    ann: u32,
    code: u32,
    part: &[u8],
) -> Result<u32, TooNarrow>
    requires ready { Ready block.old ann (length part.now) }
    requires char_is { CharIs part.now code × RunSmall run }
    ensures stays { BlockStays block.old block.new }
    ensures walk_small { WalkSmall (block.old.used + length part.now) result block.new }
    ensures adds_char { AddsChar block.old run ann code result block.new }
{
    break_word(block, run.mode, code)?;
    put_char(block, run, ann, code, part)
}
