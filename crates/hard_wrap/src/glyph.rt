// The character at the front of a text, a run of plain ones there, and a text's columns: what the `char_indices`
// and the `width` of `flush_word_hard_wrap` give, over bytes. Each function answers for bytes that are no
// text too; what it says of characters holds for those that the bytes are the UTF-8 of.
ghost use Rattle.std.specs.Prelude.{true, ◌*◌, ◌^◌, ◌≤◌, ◌<◌, length};
ghost use Rattle.characters.specs.Plain.{PlainRun};
ghost use Rattle.hard_wrap.specs.Walk.{Shows, Widths};

use characters::columns::char_width;
use characters::plain::{Plain, plain_run};
use characters::utf8::decode;

// A character's bytes and columns.
#[derive(Clone, Copy, Debug, PartialEq, Eq)]
pub struct Shape {
    pub len: usize,
    pub cols: usize,
}

// The first character.
pub fn glyph(part: &[u8]) -> Shape
    requires { 0 < length part.now }
    ensures len_nonzero { (0 < result.len) × (result.len ≤ length part.now) × (result.cols ≤ 2) }
    ensures shows { Shows part.now result.len result.cols }
{
    match decode(part) {
        Some(first) => Shape {
            len: first.len,
            cols: char_width(first.code),
        },
        None => Shape { len: 1, cols: 0 },
    }
}

// The plain characters that a text starts with, so many columns of them at most.
pub fn plain_within(part: &[u8], left: usize) -> Plain
    ensures len_in_bounds { (result.len ≤ length part.now) × (result.cols ≤ left) }
    ensures plain_run { PlainRun true part.now result.len result.cols }
{
    let end = part.len().min(left);
    plain_run(&part[..end], true)
}

// `UnicodeWidthStr::width`.
pub fn width_of(part: &[u8]) -> usize
    requires { length part.now < 2 ^ 40 }
    ensures upper_bound { result ≤ 256 * length part.now }
    ensures widths { Widths part.now result }
{
    let mut i = 0;
    let mut used = 0;
    // A turn passes a run and a character, of any number of bytes: no iterator of the library goes so.
    loop {
        let run = plain_run(&part[i..], true);
        used += run.cols;
        i += run.len;
        if i >= part.len() {
            return used;
        }
        let g = glyph(&part[i..]);
        used += g.cols;
        i += g.len;
    }
}
