// The border below the row, with the holes that the seats which hang on make in it. What a function here requires, its callers in this crate
// show.
ghost use Rattle.std.specs.Prelude.{◌≡◌, ◌≤◌, length};
ghost use Rattle.extend_lines.specs.Emitted.{InBounds, OneLineMore};
ghost use Rattle.append_columns.specs.Below.{NextOrSame, PutsHoled, DrawsHoled, AddsHoled, AddsBelow};

use borders::segment::HORIZ;
use extend_lines::line::{Lines, add_border, add_text_line, too_long};
use fields::store::{put_byte, put_bytes, put_head, put_two};
use long_borders::border::BorderHoriz;
use row_borders::border::next_border;
use row_holes::row::{cut_holes, put_holes};
use row_holes::text::push_holes;
use row_lines::long::is_long;
use rows::RenderOptions;
use seats::row::Row;
use seats::survey::Surveyed;

// A border with holes as a G field: an annotation, the number of its segments, the segments, and the holes of all seats.
fn put_holed(
    out: &mut [u8],
    lines: Lines,
    annotation: u8,
    segments: &[u8],
    row: &Row<'_>,
    collapse: bool,
    height: usize,
    laid: &mut [u8],
) -> Lines
    requires { InBounds lines × (length segments.now ≤ 65536) × (length laid.old ≡ 65538) }
    ensures one_line_more { OneLineMore lines result }
    ensures puts_holed { PutsHoled out.old lines annotation segments.now row.now collapse height out.new result }
{
    let base = lines.at + 3;
    let count = put_byte(out, base, annotation);
    let start = put_two(out, count, segments.len() % 65536);
    let place = put_bytes(out, start, segments);
    let Some(end) = put_holes(out, base, place, annotation, row, collapse, height, laid) else {
        return too_long(lines);
    };
    put_head(out, lines.at, b'G', (end - base) % 65536);
    Lines {
        at: end,
        count: lines.count + 1,
        ..lines
    }
}

// A border with holes as a line of text: the segments, and the holes of all seats.
fn add_drawn(
    out: &mut [u8],
    lines: Lines,
    options: RenderOptions,
    segments: &[u8],
    row: &Row<'_>,
    collapse: bool,
    height: usize,
) -> Lines
    requires { InBounds lines × (length segments.now ≤ 65536) }
    ensures one_line_more { OneLineMore lines result }
    ensures draws_holed { DrawsHoled out.old lines options segments.now row.now collapse height out.new result }
{
    let line = push_holes(
        out,
        lines,
        options.annotation,
        segments,
        row,
        collapse,
        height,
    );
    if is_long(line) {
        return too_long(lines);
    }
    add_text_line(out, lines, line, options)
}

// A border cut for its holes. No hole ends past it, so that it keeps its length, whatever was cut for a line that is too long to be laid.
fn add_holed(
    out: &mut [u8],
    lines: Lines,
    options: RenderOptions,
    row: &Row<'_>,
    collapse: bool,
    height: usize,
    border: &mut BorderHoriz<'_>,
) -> Lines
    requires { InBounds lines × (length border.old.buffer.now ≡ 65536) }
    ensures one_line_more { OneLineMore lines result }
    ensures adds_holed { AddsHoled out.old lines options border.old row.now collapse height out.new result }
{
    let annotation = options.annotation;
    let mut laid = [0u8; 65538];
    let len = border.len;
    cut_holes(border, annotation, row, collapse, height, &mut laid);
    border.len = len;
    let Some(segments) = border.segments() else {
        return too_long(lines);
    };
    if options.pad {
        return add_drawn(out, lines, options, segments, row, collapse, height);
    }
    put_holed(
        out, lines, annotation, segments, row, collapse, height, &mut laid,
    )
}

// The border below the row, if borders are drawn.
pub fn add_below(
    out: &mut [u8],
    lines: Lines,
    options: RenderOptions,
    row: &Row<'_>,
    joined: bool,
    collapse: bool,
    surveyed: Surveyed,
    holes: bool,
    buffer: &mut [u8],
) -> Lines
    requires { InBounds lines × (length buffer.old ≡ 65536) }
    ensures next_or_same { NextOrSame lines result }
    ensures adds_below { AddsBelow out.old lines options row.now joined collapse surveyed holes out.new result }
{
    if !options.borders {
        return lines;
    }
    let mut border = BorderHoriz::new(buffer, surveyed.total, HORIZ);
    next_border(&mut border, joined, row, collapse);
    if holes {
        return add_holed(
            out,
            lines,
            options,
            row,
            collapse,
            surveyed.height,
            &mut border,
        );
    }
    let Some(segments) = border.segments() else {
        return too_long(lines);
    };
    add_border(out, lines, options, options.annotation, segments)
}
