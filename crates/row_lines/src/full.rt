// The lines of a row of any number of seats. What a function here requires, its callers show.
ghost use Rattle.std.specs.Prelude.{◌≡◌, ◌+◌, ◌<◌, length};
ghost use Rattle.extend_lines.specs.Emitted.{InBounds};
ghost use Rattle.row_lines.specs.Full.{AddsRow};

use crate::mark::start_marks;
use crate::row::RowLine;
use extend_lines::line::Lines;
use rows::RenderOptions;
use seats::row::Row;

// So many lines as the row is high, of which the first takes the names that wait; behind one that is too long they are only counted. The marks
// are room for what is left of the seats' lines, and all they hold is lost.
pub fn add_row(
    out: &mut [u8],
    lines: Lines,
    names: &[u8],
    options: RenderOptions,
    row: &Row<'_>,
    collapse: bool,
    marks: &mut [u8],
    height: usize,
) -> Lines
    requires { InBounds lines × (lines.count + height < 1000000) }
    ensures in_bounds { InBounds result × (result.count ≡ lines.count + height) }
    ensures out_len_unchanged { (length out.new ≡ length out.old) × (length marks.new ≡ length marks.old) }
    ensures adds_row { AddsRow out.old lines names.now options row.now collapse height out.new result }
{
    start_marks(marks, row, collapse);
    let mut next = lines;
    let mut waiting = names;
    for above in 0..height {
        if next.long {
            let count = next.count + (height - above);
            return Lines { count, ..next };
        }
        let line = RowLine {
            row,
            collapse,
            above,
        };
        next = line.add(out, next, waiting, options, marks);
        waiting = &[];
    }
    next
}
