// A cell of a row where it stands in the row.
ghost use Rattle.std.specs.Prelude.{◌+◌, ◌<◌, length};

use crate::cell::Cell;
use crate::hanging::HangingCell;

// A cell's position and its width; what its lines are filled to (0 for one that hung, and for a filling cell); its rows; and its lines.
#[derive(Clone, Copy)]
pub struct Seat<'a> {
    pub pos: usize,
    pub width: usize,
    pub to: usize,
    pub span: usize,
    pub lines: &'a [u8],
    pub ghost place: { pos < 65536 },
    pub ghost reaches: { pos + width < 65791 },
    pub ghost fill: { to < 256 },
    pub ghost rows: { span < 256 },
    pub ghost near: { length lines.now < 65536 },
    pub ghost narrow: { 1 < span → width < 256 },
}

impl<'a> Seat<'a> {
    ghost use Rattle.std.specs.Prelude.{◌<◌};
    ghost use Rattle.slots.specs.Seat.{SeatOfCell, SeatOfHanging, FillingSeat};

    // A C or K field at a position.
    pub fn of_cell(cell: Cell<'a>, pos: usize) -> Seat<'a>
        requires { pos < 65280 }
        ensures { SeatOfCell cell.entry pos result }
    {
        let width = usize::from(cell.width);
        Seat {
            pos,
            width,
            to: width,
            span: usize::from(cell.span),
            lines: cell.lines,
        }
    }

    // A V field.
    pub fn of_hanging(cell: HangingCell<'a>) -> Seat<'a>
        ensures { SeatOfHanging cell.entry result }
    {
        Seat {
            pos: usize::from(cell.pos),
            width: usize::from(cell.width),
            to: 0,
            span: usize::from(cell.rows),
            lines: cell.lines,
        }
    }

    // The cell that fills a row from a position up to the edge before another.
    pub fn filling(pos: usize, end: usize) -> Seat<'a>
        requires { (pos < end) × (end < 65536) }
        ensures { FillingSeat pos end result }
    {
        Seat {
            pos,
            width: end - (pos + 1),
            to: 0,
            span: 1,
            lines: &[],
        }
    }
}
