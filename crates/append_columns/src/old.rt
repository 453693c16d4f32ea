// The lines of the old sheet, the last of them joined to the row if it is a border. What a function here requires, its callers in this
// crate show.
ghost use Rattle.std.specs.Prelude.{◌≡◌, ◌≤◌, length};
ghost use Rattle.extend_lines.specs.Emitted.{InBounds, OneLineMore};
ghost use Rattle.append_columns.specs.Old.{PutsJoined, PutsPrev, AddsOld};

use crate::sheet::OldSheet;
use extend_lines::copy::copy_lines;
use extend_lines::line::{Lines, too_long};
use long_borders::border::BorderHoriz;
use overhang::border::put_border;
use places::border::Border;
use row_borders::border::prev_border;
use seats::row::Row;

// A border with other segments, its annotation and its holes as they stand.
fn put_joined(out: &mut [u8], lines: Lines, border: Border<'_>, segments: &[u8]) -> Lines
    requires { InBounds lines × (length segments.now ≤ 65536) }
    ensures one_line_more { OneLineMore lines result }
    ensures puts_joined { PutsJoined out.old lines border.entry segments.now out.new result }
{
    let end = put_border(out, lines.at, border.annotation, segments, 0, border.holes);
    let n = end - (lines.at + 3);
    let long = lines.long || 65535 < n;
    Lines {
        at: end,
        count: lines.count + 1,
        long,
    }
}

// The sheet's last border: joined below at the inner edges, stretched if the row is wider, and with collapsing merged with the seats' first
// borders.
fn put_prev_border(
    out: &mut [u8],
    lines: Lines,
    last: Border<'_>,
    row: &Row<'_>,
    collapse: bool,
    buffer: &mut [u8],
) -> Lines
    requires { InBounds lines × (length buffer.old ≡ 65536) }
    ensures one_line_more { OneLineMore lines result }
    ensures puts_prev { PutsPrev out.old lines last.entry row.now collapse out.new result }
{
    let mut border = BorderHoriz::from_segments(buffer, last.segments);
    prev_border(&mut border, row, collapse);
    let Some(segments) = border.segments() else {
        return too_long(lines);
    };
    put_joined(out, lines, last, segments)
}

// The lines of the old sheet, a last border as the row makes it.
pub fn add_old(
    out: &mut [u8],
    old: &OldSheet<'_>,
    row: &Row<'_>,
    collapse: bool,
    buffer: &mut [u8],
) -> Lines
    requires { length buffer.old ≡ 65536 }
    ensures in_bounds { InBounds result × (result.count ≤ 65536) }
    ensures adds_old { AddsOld out.old old.now row.now collapse out.new result }
{
    let lines = copy_lines(out, Lines::new(), old.lines);
    match old.last {
        Some(last) => put_prev_border(out, lines, last, row, collapse, buffer),
        None => lines,
    }
}
