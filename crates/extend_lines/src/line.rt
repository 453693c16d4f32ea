// The lines so far, and one line more.
ghost use Rattle.std.specs.Prelude.{◌≡◌, true, ◌^◌, ◌<◌, length};
ghost use Rattle.extend_lines.specs.Emitted.{no_lines, InBounds, OneLineMore, LineBegun, FinishesLine, AddsTextLine, BeginsLine, PutsBorder, AddsBorder, Closes};

use borders::draw::Drawing;
use fields::answer::{finish, refuse};
use fields::refusal::Refusal;
use fields::store::{put_byte, put_bytes, put_head};
use rows::RenderOptions;
use tagged_line::line::Line;

// The place after the lines so far, their number, and whether one of them has more than 65,535 bytes (refusal 7).
#[derive(Clone, Copy, Debug, PartialEq, Eq)]
pub struct Lines {
    pub at: usize,
    pub count: usize,
    pub long: bool,
}

impl Lines {
    // No lines yet: the first five bytes are the head's.
    pub fn new() -> Lines
        ensures { result ≡ no_lines }
    {
        Lines {
            at: 5,
            count: 0,
            long: false,
        }
    }

    // The end of a call: refusal 7, 9 or 8, or the head in front of the lines and what stands behind them.
    pub fn close(self, store: &mut [u8]) -> Result<usize, Refusal>
        ensures { Closes self store.old result store.new }
    {
        if self.long {
            return refuse(Refusal::LongLine, store);
        }
        if 65535 < self.count {
            return refuse(Refusal::LongSheet, store);
        }
        finish(self.at, self.count, store)
    }
}

// A line that is too long for its field is counted.
pub fn too_long(lines: Lines) -> Lines
    requires { InBounds lines }
    ensures { OneLineMore lines result × (result.long ≡ true) }
{
    Lines {
        count: lines.count + 1,
        long: true,
        ..lines
    }
}

// `TaggedLine::new`, and the names that wait, F fields as they stand: no piece of text is open behind them.
pub fn begin_line(out: &mut [u8], lines: Lines, names: &[u8]) -> Line
    requires { InBounds lines × (length names.now < 65536) }
    ensures line_begun { LineBegun lines result 65538 × (result.cols ≡ 0) }
    ensures begins_line { BeginsLine out.old names.now out.new result }
{
    let base = lines.at + 3;
    let at = put_bytes(out, base, names);
    Line {
        base,
        at,
        piece: at,
        annotation: 0,
        cols: 0,
    }
}

// The head in front of a text line's content, which ends the line.
fn finish_line(out: &mut [u8], lines: Lines, line: Line) -> Lines
    requires { InBounds lines × LineBegun lines line 8300000 }
    ensures one_line_more { OneLineMore lines result }
    ensures finishes_line { FinishesLine out.old lines line out.new result }
{
    let n = line.at - line.base;
    put_head(out, lines.at, b'L', n % 65536);
    let long = lines.long || 65535 < n;
    Lines {
        at: line.at,
        count: lines.count + 1,
        long,
    }
}

// `add_line` of a text: with pad it is filled to the sheet's width.
pub fn add_text_line(out: &mut [u8], lines: Lines, line: Line, options: RenderOptions) -> Lines
    requires { InBounds lines × LineBegun lines line 8000000 }
    ensures one_line_more { OneLineMore lines result }
    ensures adds_text_line { AddsTextLine out.old lines line options out.new result }
{
    if options.pad {
        let padded = line.pad_to(out, usize::from(options.width), options.annotation);
        return finish_line(out, lines, padded);
    }
    finish_line(out, lines, line)
}

// A border without holes as it stands: a B field.
pub fn put_border(out: &mut [u8], lines: Lines, annotation: u8, segs: &[u8]) -> Lines
    requires { InBounds lines × (length segs.now < 2 ^ 20) }
    ensures one_line_more { OneLineMore lines result }
    ensures puts_border { PutsBorder out.old lines annotation segs.now out.new result }
{
    let n = segs.len() + 1;
    let first = put_head(out, lines.at, b'B', n % 65536);
    let start = put_byte(out, first, annotation);
    let end = put_bytes(out, start, segs);
    let long = lines.long || 65535 < n;
    Lines {
        at: end,
        count: lines.count + 1,
        long,
    }
}

// `add_line` of a border without holes: with pad it becomes text, under its own annotation.
pub fn add_border(
    out: &mut [u8],
    lines: Lines,
    options: RenderOptions,
    annotation: u8,
    segs: &[u8],
) -> Lines
    requires { InBounds lines × (length segs.now < 2 ^ 20) }
    ensures one_line_more { OneLineMore lines result }
    ensures adds_border { AddsBorder out.old lines options annotation segs.now out.new result }
{
    if options.pad {
        let line = Line::new(lines.at);
        let text = line.push_drawn(out, annotation, segs, 0, Drawing::Segments);
        return add_text_line(out, lines, text, options);
    }
    put_border(out, lines, annotation, segs)
}
