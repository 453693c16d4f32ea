// A line of a row. What a function here requires, its callers in this crate show.
ghost use Rattle.std.specs.Prelude.{◌+◌};
ghost use Rattle.tagged_line.specs.Held.{Within, LineGrown};
ghost use Rattle.extend_lines.specs.Emitted.{InBounds, OneLineMore};
ghost use Rattle.row_lines.specs.Seat.{seat_most};
ghost use Rattle.row_lines.specs.Row.{place_most, line_most, AddsMarked, LaysSeats, AddsLine};

use crate::long::is_long;
use crate::mark::{lines_left, set_mark};
use crate::seat::{add_seat, open_seat};
use extend_lines::line::{Lines, add_text_line, begin_line, too_long};
use rows::RenderOptions;
use seats::row::Row;
use slots::seat::Seat;
use tagged_line::line::Line;

// A row, collapsed or not, and how many of its lines are above.
#[derive(Clone, Copy)]
pub struct RowLine<'r, 'a> {
    pub row: &'r Row<'a>,
    pub collapse: bool,
    pub above: usize,
}

impl<'r, 'a> RowLine<'r, 'a> {
    // What the k-th seat gives to the line, behind an edge; its mark goes on by a line.
    fn add_marked(
        self,
        out: &mut [u8],
        line: Line,
        options: RenderOptions,
        seat: Seat<'_>,
        k: usize,
        marks: &mut [u8],
    ) -> Line
        requires { Within line place_most }
        ensures line_grown { LineGrown line result place_most }
        ensures adds_marked { AddsMarked out.old line options seat.entry k self.entry.collapse self.entry.above marks.old out.new marks.new result }
    {
        let opened = open_seat(out, line, options, k);
        let left = lines_left(marks, k, seat.lines, self.collapse, self.above);
        let (line, left) = add_seat(out, opened, options, seat, left, self.collapse);
        set_mark(marks, k, left);
        line
    }

    // All seats on a line that is begun, up to where it is too long.
    fn lay_seats(
        self,
        out: &mut [u8],
        begun: Line,
        options: RenderOptions,
        marks: &mut [u8],
    ) -> Line
        requires { Within begun (line_most + place_most) }
        ensures line_grown { LineGrown begun result line_most }
        ensures lays_seats { LaysSeats out.old begun options self.entry.row.now self.entry.collapse self.entry.above marks.old out.new marks.new result }
    {
        let mut line = begun;
        let mut k: usize = 0;
        for seat in self.row.iter() {
            if is_long(line) {
                return line;
            }
            line = self.add_marked(out, line, options, seat, k, marks);
            k = k.saturating_add(1);
        }
        line
    }

    // The line behind others, which takes the names; more of them than a line holds make it too long.
    pub fn add(
        self,
        out: &mut [u8],
        lines: Lines,
        names: &[u8],
        options: RenderOptions,
        marks: &mut [u8],
    ) -> Lines
        requires { InBounds lines }
        ensures one_line_more { OneLineMore lines result }
        ensures adds_line { AddsLine out.old lines names.now options self.entry.row.now self.entry.collapse self.entry.above marks.old out.new marks.new result }
    {
        if 65535 < names.len() {
            return too_long(lines);
        }
        let begun = begin_line(out, lines, names);
        let line = self.lay_seats(out, begun, options, marks);
        if is_long(line) {
            return too_long(lines);
        }
        add_text_line(out, lines, line, options)
    }
}
