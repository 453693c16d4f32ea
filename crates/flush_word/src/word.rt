// `flush_word`.
ghost use Rattle.std.specs.Prelude.{◌≡◌, true, [], ◌+◌, ◌-◌, ◌≤◌, length};
ghost use Rattle.flush_word.specs.Keep.{CountsWithinUnits, BuffersLongEnough, BlockStays, PutsWord, StartsPre, StartsAt, Opened, OpensLine, StaysWithinUnits, WordStands, WrapsWord, FlushesWord};

use crate::state::{NO_BLANKS, WrappedBlock};
use crate::trim::white_front;
use crate::white_space::WhiteSpace;
use hard_wrap::error::TooNarrow;
use lines::encode::MARK;
use lines::line::TaggedLine;

// Whether a word's first text is of mode Pre.
fn starts_pre(word: &TaggedLine<'_>) -> bool
    ensures { StartsPre word.now.items result }
{
    match word.tags().iter().find(|tag| **tag < MARK) {
        Some(tag) => WhiteSpace::of_tag(*tag) == WhiteSpace::Pre,
        None => false,
    }
}

impl WrappedBlock<'_> {
    // "Got enough space": the blanks and the word go on the line.
    fn put_word(&mut self)
        requires counts_within_units { CountsWithinUnits self.old × BuffersLongEnough self.old }
        requires cols_bound { self.old.blanks.count + self.old.word.cols ≤ self.old.line.frame.width - self.old.line.cols }
        ensures stays { BlockStays self.old self.new }
        ensures counts_within_units_2 { CountsWithinUnits self.new × (self.new.used ≡ self.old.used) }
        ensures emptied { self.new.word.entries.items ≡ [] }
        ensures puts_word { PutsWord self.old self.new }
    {
        self.line
            .entries
            .push_ws(self.blanks.count, self.blanks.tag);
        self.line.entries.consume(&self.word.entries);
        self.line.cols += self.blanks.count + self.word.cols;
        self.word.clear();
        self.blanks = NO_BLANKS;
        self.wrapped = false;
    }

    // Where the word starts once PreWrap has trimmed its front.
    fn word_start(&self) -> usize
        ensures upper_bound { result ≤ length self.now.word.entries.items }
        ensures starts_at { StartsAt self.now.blanks self.now.word.entries.items result }
    {
        if self.blanks.count == 0 {
            return 0;
        }
        match WhiteSpace::of_tag(self.blanks.tag) {
            WhiteSpace::PreWrap => white_front(&self.word.entries),
            _ => 0,
        }
    }

    // A new line, and the blanks that are carried on.
    fn next_line(&mut self)
        requires { CountsWithinUnits self.old × BuffersLongEnough self.old }
        ensures stays { BlockStays self.old self.new }
        ensures opened { Opened self.old self.new }
        ensures opens_line { OpensLine self.old self.new }
    {
        self.drop_blanks();
        self.line.flush_line();
        self.line.write_blanks(self.blanks.count, self.blanks.tag);
    }

    // "Not enough space": a new line, and the word hard-wrapped.
    fn wrap_word(&mut self) -> Result<(), TooNarrow>
        requires counts_within_units { CountsWithinUnits self.old × BuffersLongEnough self.old }
        requires text_value { self.old.word.has_text ≡ true }
        ensures stays { BlockStays self.old self.new }
        ensures stays_within_units { StaysWithinUnits self.old.used result self.new }
        ensures word_stands { WordStands self.old result self.new }
        ensures wraps_word { WrapsWord self.old result self.new }
    {
        let pre = starts_pre(&self.word.entries);
        let start = self.word_start();
        self.next_line();
        self.line.hard_wrap(&self.word.entries, start)?;
        self.word.clear();
        self.blanks = NO_BLANKS;
        self.wrapped = pre;
        Ok(())
    }

    // `flush_word`: nothing while the word has no text.
    pub fn flush_word(&mut self) -> Result<(), TooNarrow>
        requires { CountsWithinUnits self.old × BuffersLongEnough self.old }
        ensures stays { BlockStays self.old self.new }
        ensures stays_within_units { StaysWithinUnits self.old.used result self.new }
        ensures word_stands { WordStands self.old result self.new }
        ensures flushes_word { FlushesWord self.old result self.new }
    {
        if !self.word.has_text {
            return Ok(());
        }
        if self.blanks.count + self.word.cols <= self.line.frame.width - self.line.cols {
            self.put_word();
            return Ok(());
        }
        self.wrap_word()
    }
}
