// What is left of the lines of a row's seats: of so many seats as there is room for it is kept as a mark, a number of bytes in two bytes, and of
// the others it is found anew. What a function here requires, its callers in this crate show.
ghost use Rattle.std.specs.Prelude.{◌≤◌, ◌<◌, length};
ghost use Rattle.rows.proofs.Reading.{Bytes};
ghost use Rattle.row_lines.specs.Mark.{EndsAt, FindsMarked, MarkSet, StartsMarks};

use crate::left::{first_lines, lines_down};
use seats::row::Row;

// The lines of the k-th seat that are left, so many lines down.
pub fn lines_left<'a>(marks: &[u8], k: usize, lines: &'a [u8], collapse: bool, n: usize) -> &'a [u8]
    ensures known { Bytes lines.entry.now }
    ensures shorter { length result.now ≤ length lines.entry.now }
    ensures ends { EndsAt marks.now k lines.entry.now result.now }
    ensures finds_marked { FindsMarked marks.now k lines.entry.now collapse n result.now }
{
    if k < marks.len() / 2 {
        let size = usize::from(marks[2 * k]) * 256 + usize::from(marks[2 * k + 1]);
        return &lines[lines.len().saturating_sub(size)..];
    }
    lines_down(lines, collapse, n)
}

// The mark of the k-th seat, if there is room for it.
pub fn set_mark(marks: &mut [u8], k: usize, left: &[u8])
    requires { length left.now < 65536 }
    ensures { MarkSet marks.old k (length left.now) marks.new }
{
    if marks.len() / 2 <= k {
        return;
    }
    marks[2 * k] = (left.len() / 256) as u8;
    marks[2 * k + 1] = (left.len() % 256) as u8;
}

// The marks of all seats, from their first lines on.
pub fn start_marks(marks: &mut [u8], row: &Row<'_>, collapse: bool)
    ensures { StartsMarks row.now collapse marks.new }
{
    let mut k: usize = 0;
    for seat in row.iter() {
        set_mark(marks, k, first_lines(seat.lines, collapse));
        k = k.saturating_add(1);
    }
}
