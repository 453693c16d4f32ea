// The border above a row and the border below it, before its holes.
ghost use Rattle.std.specs.Prelude.{◌≡◌, length};
ghost use Rattle.row_borders.specs.Border.{BordersAbove, BordersBelow};

use crate::join::join_edges;
use crate::merge::merge_seats;
use borders::border::Side;
use long_borders::border::BorderHoriz;
use seats::row::Row;

// What the row makes of a border that the old lines end in.
pub fn prev_border(border: &mut BorderHoriz<'_>, row: &Row<'_>, collapse: bool)
    ensures same_buffer { border.new.buffer.ghost_name ≡ border.old.buffer.ghost_name }
    ensures room { length border.new.buffer.now ≡ length border.old.buffer.now }
    ensures borders_above { BordersAbove border.old row.now collapse border.new }
{
    let end = join_edges(border, row, Side::Below);
    border.stretch_to(end);
    if collapse {
        merge_seats(border, row, Side::Below);
    }
}

// The border that the row ends in, before its holes, of a new one as wide as the row: joined above if there is a border above the row.
pub fn next_border(border: &mut BorderHoriz<'_>, joined: bool, row: &Row<'_>, collapse: bool)
    ensures same_buffer { border.new.buffer.ghost_name ≡ border.old.buffer.ghost_name }
    ensures room { length border.new.buffer.now ≡ length border.old.buffer.now }
    ensures borders_below { BordersBelow border.old joined row.now collapse border.new }
{
    if joined {
        join_edges(border, row, Side::Above);
    }
    if collapse {
        merge_seats(border, row, Side::Above);
    }
}
