// The borders of the cells of a row merged into the row's borders.
ghost use Rattle.std.specs.Prelude.{◌≡◌, ◌<◌, length};
ghost use Rattle.row_borders.specs.Merge.{FindsFirst, FindsBorder, MergesLines, MergesSeats};

use bodies::body::body_of;
use borders::border::Side;
use fields::list::split_field;
use long_borders::border::BorderHoriz;
use long_borders::position::advance;
use places::border::Border;
use seats::row::Row;

// The border that lines start with.
fn first_border(lines: &[u8]) -> Option<Border<'_>>
    ensures { FindsFirst lines.now result }
{
    match split_field(lines) {
        Some((first, _)) if first.letter != b'L' => Some(Border::of(first)),
        _ => None,
    }
}

// The border of a cell that is merged from a side: from above its last one, and from below its first one.
fn border_from(lines: &[u8], side: Side) -> Option<Border<'_>>
    ensures { FindsBorder side lines.now result }
{
    match side {
        Side::Above => body_of(lines, true).bottom,
        Side::Below => first_border(lines),
    }
}

// The same border of one seat's lines, merged from a position on.
fn merge_lines(border: &mut BorderHoriz<'_>, lines: &[u8], pos: usize, side: Side)
    requires { pos < 8589934592 }
    ensures same_buffer { border.new.buffer.ghost_name ≡ border.old.buffer.ghost_name }
    ensures room { length border.new.buffer.now ≡ length border.old.buffer.now }
    ensures merges_lines { MergesLines side border.old lines.now pos border.new }
{
    if let Some(own) = border_from(lines, side) {
        border.merge_from(own.segments, pos, side);
    }
}

// The first borders of the cells of a row merged from below, or the last ones merged from above.
pub fn merge_seats(border: &mut BorderHoriz<'_>, row: &Row<'_>, side: Side)
    ensures same_buffer { border.new.buffer.ghost_name ≡ border.old.buffer.ghost_name }
    ensures room { length border.new.buffer.now ≡ length border.old.buffer.now }
    ensures merges_seats { MergesSeats side border.old row.now border.new }
{
    let mut pos = 0;
    for seat in row.iter() {
        merge_lines(border, seat.lines, pos, side);
        pos = advance(pos, seat.width + 1);
    }
}
