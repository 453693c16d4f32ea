// Joins at the inner edges of a row.
ghost use Rattle.std.specs.Prelude.{◌≡◌, ◌<◌, length, IfSome};
ghost use Rattle.row_borders.specs.Join.{JoinsNext, JoinsEdges};

use borders::border::Side;
use long_borders::border::BorderHoriz;
use long_borders::position::advance;
use seats::row::Row;

// One seat more: a join at the edge before it, where the seat before it ends, if one stands there. The answer is where it ends itself.
fn join_next(border: &mut BorderHoriz<'_>, end: Option<usize>, width: usize, side: Side) -> usize
    requires { IfSome end (λ edge. edge < 8589934592) × (width < 65791) }
    ensures same_buffer { border.new.buffer.ghost_name ≡ border.old.buffer.ghost_name }
    ensures room { length border.new.buffer.now ≡ length border.old.buffer.now }
    ensures upper_bound { result < 8589934592 }
    ensures joins_next { JoinsNext side border.old end width border.new result }
{
    let Some(edge) = end else {
        return width;
    };
    border.join_on(edge, side);
    advance(edge, width + 1)
}

// A join at each inner edge of a row, above or below. The answer is where the last seat ends.
pub fn join_edges(border: &mut BorderHoriz<'_>, row: &Row<'_>, side: Side) -> usize
    ensures same_buffer { border.new.buffer.ghost_name ≡ border.old.buffer.ghost_name }
    ensures room { length border.new.buffer.now ≡ length border.old.buffer.now }
    ensures joins_edges { JoinsEdges side border.old row.now border.new result }
{
    let mut end = None;
    for seat in row.iter() {
        end = Some(join_next(border, end, seat.width, side));
    }
    end.unwrap_or(0)
}
