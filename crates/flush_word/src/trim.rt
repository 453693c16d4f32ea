// White space at a wrap point of PreWrap text (`remove_leading_whitespace`, `remove_trailing_spaces`).
ghost use Rattle.std.specs.Prelude.{◌≤◌, length};
ghost use Rattle.hard_wrap.specs.Hold.{Stays};
ghost use Rattle.flush_word.specs.Trims.{White, TrimsFront, TrimsBack, Trimmed, TrimsLine};

use characters::utf8::decode;
use characters::whitespace::is_whitespace;
use hard_wrap::line::OpenLine;
use lines::encode::MARK;
use lines::line::TaggedLine;

// How many bytes the white space character takes that a text starts with; 0 where there is none.
fn white_len(part: &[u8]) -> usize
    ensures upper_bound { result ≤ length part.now }
    ensures white { White part.now result }
{
    match decode(part) {
        Some(first) if is_whitespace(first.code) => first.len,
        _ => 0,
    }
}

// How many bytes of white space a word starts with, up to a name (`remove_leading_whitespace`).
pub fn white_front(word: &TaggedLine<'_>) -> usize
    ensures upper_bound { result ≤ length word.now.items }
    ensures trims_front { TrimsFront word.now.items result }
{
    let bytes = word.bytes();
    let tags = word.tags();
    let mut i: usize = 0;
    // A turn passes a character, of any number of bytes: no iterator of the library goes so.
    while i < tags.len() {
        if MARK <= tags[i] {
            return i;
        }
        let k = white_len(&bytes[i..]);
        if k == 0 {
            return i;
        }
        i += k;
    }
    i
}

// The end of a line without the spaces there.
fn trimmed_end(line: &TaggedLine<'_>) -> usize
    ensures upper_bound { result ≤ length line.now.items }
    ensures trims_back { TrimsBack line.now.items result }
{
    let bytes = line.bytes();
    let tags = line.tags();
    for i in (0..line.len()).rev() {
        if bytes[i] != 32 || MARK <= tags[i] {
            return i + 1;
        }
    }
    0
}

// The line loses the spaces at its end (`remove_trailing_spaces`).
pub fn trim_line(line: &mut OpenLine<'_>)
    ensures stays { Stays line.old line.new }
    ensures trimmed { Trimmed line.old line.new }
    ensures trims_line { TrimsLine line.old line.new }
{
    let n = trimmed_end(&line.entries);
    line.cols = line.cols.saturating_sub(line.entries.len() - n);
    line.entries.truncate(n);
}
