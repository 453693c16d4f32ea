// The lines of a cell that hangs on, filled to its width.
ghost use Rattle.std.specs.Prelude.{◌≡◌, ◌+◌, ◌^◌, ◌≤◌, ◌<◌, length};
ghost use Rattle.overhang.specs.Filled.{LineIn, PutsText, PutsStretched, PutsFilled, PutsLines};

use crate::border::put_border;
use fields::list::Fields;
use fields::raw::Field;
use fields::store::put_head;
use places::border::Border;
use rows::RenderOptions;
use tagged_line::line::Line;

// A text line, filled.
fn put_text(out: &mut [u8], at: usize, options: RenderOptions, line: Field<'_>, to: usize) -> usize
    requires { (at < 2 ^ 60) × (to < 256) }
    ensures line_in { LineIn at (length line.entry.content.now) to result }
    ensures puts_text { PutsText out.old at options line.entry.content.now to out.new result }
{
    let laid = Line::new(at).add_pieces(out, line.content, false, false);
    let filled = laid.pad_to(out, to, options.annotation);
    put_head(out, at, b'L', (filled.at - filled.base) % 65536);
    filled.at
}

// A border, stretched; its holes stay.
fn put_stretched(out: &mut [u8], at: usize, line: Field<'_>, to: usize) -> usize
    requires { (at < 2 ^ 60) × (to < 256) }
    ensures line_in { LineIn at (length line.entry.content.now) to result }
    ensures puts_stretched { PutsStretched out.old at line.entry to out.new result }
{
    let border = Border::of(line);
    let more = to.saturating_sub(border.segments.len());
    put_border(
        out,
        at,
        border.annotation,
        border.segments,
        more,
        border.holes,
    )
}

// A line, filled or stretched.
fn put_filled(
    out: &mut [u8],
    at: usize,
    options: RenderOptions,
    line: Field<'_>,
    to: usize,
) -> usize
    requires { (at < 2 ^ 60) × (to < 256) }
    ensures line_in { LineIn at (length line.entry.content.now) to result }
    ensures puts_filled { PutsFilled out.old at options line.entry to out.new result }
{
    if line.letter == b'L' {
        return put_text(out, at, options, line, to);
    }
    put_stretched(out, at, line, to)
}

// All lines, filled.
pub fn put_lines(
    out: &mut [u8],
    place: usize,
    options: RenderOptions,
    lines: &[u8],
    to: usize,
) -> usize
    requires { (place < 2 ^ 59) × (length lines.now < 65536) × (to < 256) }
    ensures lower_bound { (place ≤ result) × (result ≤ place + 67108864) }
    ensures puts_lines { PutsLines out.old place options lines.now to out.new result }
{
    let mut at = place;
    for line in Fields::new(lines) {
        if let Ok(line) = line {
            at = put_filled(out, at, options, line, to);
        }
    }
    at
}
