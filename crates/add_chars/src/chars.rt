// What a character that ends no line does, and what a name does: a character of a word, a blank that is kept or collapses.
ghost use Rattle.std.specs.Prelude.{◌≡◌, ◌+◌, ◌<◌, ◌≤◌, length};
ghost use Rattle.flush_word.specs.Keep.{CountsWithinUnits, BlockStays};
ghost use Rattle.add_chars.specs.Chars.{WordLongEnough, AmongUnits, PushesChars, PushesWord, KeepsBlank, Collapses, AddsElement};

use flush_word::state::{Blanks, WrappedBlock};
use lines::encode::{MARK, NAME};

// Characters of one tag after the word's (`push_char` for each of them); `pre_wrapped` is as said.
pub fn push_chars(block: &mut WrappedBlock<'_>, part: &[u8], cols: usize, tag: u32, wrapped: bool)
    requires counts_within_units { CountsWithinUnits block.old × WordLongEnough block.old }
    requires among_units { AmongUnits block.old (length part.now) cols }
    ensures stays { BlockStays block.old block.new }
    ensures line_stays { block.new.line ≡ block.old.line }
    ensures counts_within_units_2 { CountsWithinUnits block.new × (block.new.used ≡ block.old.used + length part.now) }
    ensures pushes_chars { PushesChars block.old part.now cols tag wrapped block.new }
{
    block.word.entries.push_str(part, tag);
    block.word.cols += cols;
    block.word.has_text = true;
    block.wrapped = wrapped;
    block.used += part.len();
}

// A character after the word's (`push_char`).
pub fn push_word(block: &mut WrappedBlock<'_>, part: &[u8], cols: usize, tag: u32)
    requires counts_within_units { CountsWithinUnits block.old × WordLongEnough block.old }
    requires among_units { AmongUnits block.old (length part.now) cols }
    ensures stays { BlockStays block.old block.new }
    ensures line_stays { block.new.line ≡ block.old.line }
    ensures counts_within_units_2 { CountsWithinUnits block.new × (block.new.used ≡ block.old.used + length part.now) }
    ensures pushes_word { PushesWord block.old part.now cols tag block.new }
{
    let wrapped = block.wrapped;
    push_chars(block, part, cols, tag, wrapped);
}

// A blank where white space is kept: it joins a word that has text, and else it pends.
pub fn keep_blank(block: &mut WrappedBlock<'_>, part: &[u8], cols: usize, tag: u32)
    requires counts_within_units { CountsWithinUnits block.old × WordLongEnough block.old }
    requires among_units { AmongUnits block.old (length part.now) cols }
    ensures stays { BlockStays block.old block.new }
    ensures line_stays { block.new.line ≡ block.old.line }
    ensures counts_within_units_2 { CountsWithinUnits block.new × (block.new.used ≡ block.old.used + length part.now) }
    ensures keeps_blank { KeepsBlank block.old part.now cols tag block.new }
{
    if block.word.has_text {
        push_word(block, part, cols, tag);
        return;
    }
    block.blanks.count += cols;
    block.blanks.tag = tag;
    block.used += part.len();
}

// A blank in Normal: it counts once, and only if the line has columns and no blank is pending.
pub fn collapse(block: &mut WrappedBlock<'_>, tag: u32)
    requires { CountsWithinUnits block.old × (block.old.used < 4096) }
    ensures stays { BlockStays block.old block.new }
    ensures line_stays { block.new.line ≡ block.old.line }
    ensures word_stays { block.new.word ≡ block.old.word }
    ensures counts_within_units { CountsWithinUnits block.new × (block.new.used ≤ block.old.used + 1) }
    ensures collapses { Collapses block.old tag block.new }
{
    if block.line.cols == 0 || block.blanks.count != 0 {
        return;
    }
    block.blanks = Blanks { count: 1, tag };
    block.used += 1;
}

// `add_element`: a name goes to the word still open, or to the next one.
pub fn add_element(block: &mut WrappedBlock<'_>, name: &[u8])
    requires counts_within_units { CountsWithinUnits block.old × WordLongEnough block.old }
    requires name_bound { block.old.used + 1 + length name.now ≤ 4096 }
    ensures stays { BlockStays block.old block.new }
    ensures line_stays { block.new.line ≡ block.old.line }
    ensures counts_within_units_2 { CountsWithinUnits block.new × (block.new.used ≡ block.old.used + 1 + length name.now) }
    ensures adds_element { AddsElement block.old name.now block.new }
{
    block.word.entries.push(0, MARK);
    block.word.entries.push_str(name, NAME);
    block.used += 1 + name.len();
}
