// The cells that hang on below a row, as V fields behind the lines and the names that wait.
ghost use Rattle.std.specs.Prelude.{◌≡◌, ◌+◌, ◌^◌, ◌≤◌, ◌<◌};
ghost use Rattle.overhang.specs.Hang.{LeavesCell, PutsHanging, HangsOn, HangsSeat, HangsAll};

use crate::line::put_lines;
use bodies::body::body_of;
use bodies::walk::skip_lines;
use extend_lines::line::Lines;
use fields::store::{put_byte, put_head, put_two};
use rows::RenderOptions;
use seats::row::Row;
use slots::hanging::HangingCell;
use slots::seat::Seat;

// A V field at the front of a store, its lines filled to a width: the length of its content.
fn put_field(out: &mut [u8], options: RenderOptions, cell: HangingCell<'_>, to: usize) -> usize
    requires { to < 256 }
    ensures upper_bound { result ≤ 67108868 }
    ensures puts_hanging { PutsHanging out.old options cell.entry to out.new result }
{
    let second = put_two(out, 3, usize::from(cell.pos));
    let third = put_byte(out, second, cell.width);
    let start = put_byte(out, third, cell.rows);
    let end = put_lines(out, start, options, cell.lines, to);
    let n = end - 3;
    put_head(out, 0, b'V', n % 65536);
    n
}

// A V field behind all that is written already. Where a line is too long the place may reach the largest number: it stays there, and
// refusal 7 follows.
fn put_hanging(
    out: &mut [u8],
    lines: Lines,
    options: RenderOptions,
    cell: HangingCell<'_>,
    to: usize,
) -> Lines
    requires { to < 256 }
    ensures count_value { result.count ≡ lines.count }
    ensures hangs_on { HangsOn out.old lines options cell.entry to out.new result }
{
    let place = lines.at.min(out.len());
    let n = put_field(&mut out[place..], options, cell, to);
    let long = lines.long || 65535 < n;
    Lines {
        at: lines.at.saturating_add(3 + n),
        long,
        ..lines
    }
}

// What is left of a seat that spans more rows, so many lines down: the lines behind them, and a row less.
fn cell_below(seat: Seat<'_>, collapse: bool, height: usize) -> HangingCell<'_>
    requires { (1 < seat.span) × (height < 2 ^ 63) }
    ensures { LeavesCell seat.entry collapse height result }
{
    let body = body_of(seat.lines, collapse);
    HangingCell {
        pos: seat.pos as u16,
        width: seat.width as u8,
        rows: (seat.span - 1) as u8,
        lines: skip_lines(body.lines, height + 1),
    }
}

// What hangs on of a seat: nothing where it spans no further row.
fn hang_seat(
    out: &mut [u8],
    lines: Lines,
    options: RenderOptions,
    seat: Seat<'_>,
    collapse: bool,
    height: usize,
) -> Lines
    requires { height < 2 ^ 63 }
    ensures count_value { result.count ≡ lines.count }
    ensures hangs_seat { HangsSeat out.old lines options seat.entry collapse height out.new result }
{
    if seat.span <= 1 {
        return lines;
    }
    let cell = cell_below(seat, collapse, height);
    put_hanging(out, lines, options, cell, seat.to)
}

// All that hangs on below the row.
pub fn hang_on(
    out: &mut [u8],
    lines: Lines,
    options: RenderOptions,
    row: &Row<'_>,
    collapse: bool,
    height: usize,
) -> Lines
    requires { height < 2 ^ 63 }
    ensures count_value { result.count ≡ lines.count }
    ensures hangs_all { HangsAll out.old lines options row.now collapse height out.new result }
{
    let mut next = lines;
    for seat in row.iter() {
        next = hang_seat(out, next, options, seat, collapse, height);
    }
    next
}
