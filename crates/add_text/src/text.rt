// `add_text`.
ghost use Rattle.std.specs.Prelude.{◌≡◌, ◌+◌, ◌≤◌, length, if◌then◌else◌};
ghost use Rattle.flush_word.specs.Keep.{CountsWithinUnits, BuffersLongEnough, BlockStays};
ghost use Rattle.add_text.specs.Walks.{RunSmall, TextSmall, AddsText};

use crate::runs::add_plain;
use crate::walk::add_char;
use characters::utf8::decode;
use flush_word::state::WrappedBlock;
use flush_word::white_space::WhiteSpace;
use hard_wrap::error::TooNarrow;

// What a T field says of its text: the mode, and the two annotations.
#[derive(Clone, Copy, Debug, PartialEq, Eq)]
pub struct Run {
    pub mode: WhiteSpace,
    pub main: u32,
    pub wrap: u32,
}

// The annotation that a text begins with: the continued one while a wrap of Pre text stands.
fn first_annotation(run: Run, wrapped: bool) -> u32
    ensures { result ≡ (if wrapped then run.wrap else run.main) }
{
    if wrapped { run.wrap } else { run.main }
}

// `add_text`: the text of a T field, run by run of plain characters and one character after each.
pub fn add_text(block: &mut WrappedBlock<'_>, run: Run, text: &[u8]) -> Result<(), TooNarrow>
    requires counts_within_units { CountsWithinUnits block.old × BuffersLongEnough block.old }
    requires run_small { RunSmall run × (block.old.used + length text.now ≤ 4096) }
    ensures stays { BlockStays block.old block.new }
    ensures text_small { TextSmall (block.old.used + length text.now) result block.new }
    ensures adds_text { AddsText block.old run text.now result block.new }
{
    // The annotation in use (the local `tag` of the Rust).
    let mut ann = first_annotation(run, block.wrapped);
    let mut at: usize = 0;
    // A turn passes a run and a character, of any number of bytes: no iterator of the library goes so.
    loop {
        let past = add_plain(block, run, ann, &text[at..]);
        at += past.len;
        let Some(first) = decode(&text[at..]) else {
            return Ok(());
        };
        let end = at + first.len;
        ann = add_char(block, run, past.ann, first.code, &text[at..end])?;
        at = end;
    }
}
