// What one seat has to do with refusal 10.
ghost use Rattle.std.specs.Prelude.{◌≡◌, ◌&&◌, ◌^◌, ◌<◌, ltb, length, IfSome};
ghost use Rattle.std.specs.Option.{is_none};
ghost use Rattle.row_fit.specs.Seat.{last_join, CountsThrough, CountsSeat, FitsSeat};

use crate::reach::SeatFit;
use bodies::body::{Body, body_of};
use bodies::walk::skip_lines;
use borders::border::Side;
use fields::list::split_field;
use fields::refusal::Refusal;
use holes::cols::line_cols;
use holes::overlap::lines_overlap;
use slots::seat::Seat;

// The last segment of a border at which it joins another that it is merged into from above.
fn last_join(segments: &[u8]) -> Option<usize>
    ensures upper_bound { IfSome result (λ i. i < length segments.now) }
    ensures value { result ≡ last_join segments.now }
{
    segments
        .iter()
        .rposition(|segment| Side::Above.joins(*segment))
}

// Whether a seat is to be filled and is wider than the row; one whose last border was taken off is filled by its pattern.
fn too_wide(body: Body<'_>, width: usize, total: usize, height: usize) -> bool
    ensures { result ≡ (ltb body.entry.count height && (is_none body.entry.bottom && ltb total width)) }
{
    body.count < height && body.bottom.is_none() && total < width
}

// The columns of the line that comes where the border is, if it hangs through it and makes a hole.
fn through_cols(lines: &[u8], seat: Seat<'_>, height: usize) -> Option<usize>
    ensures cols_low { IfSome result (λ cols. cols < 2 ^ 18) }
    ensures counts_through { CountsThrough lines.now seat.entry height result }
{
    if seat.span <= 1 {
        return None;
    }
    let rest = skip_lines(lines, height);
    if rest.is_empty() {
        return Some(seat.width);
    }
    let (line, _) = split_field(rest)?;
    line_cols(line, seat.to)
}

// The columns of the line of a seat that hangs through the border, whether the seat is refused or not.
pub fn seat_through(seat: Seat<'_>, collapse: bool, height: usize) -> Option<usize>
    ensures { CountsSeat seat.entry collapse height result }
{
    let body = body_of(seat.lines, collapse);
    through_cols(body.lines, seat, height)
}

// What one seat has to do with refusal 10, height lines down: it is refused where it is too wide to be filled, or a line of it cannot be
// drawn.
pub fn seat_fit(
    seat: Seat<'_>,
    collapse: bool,
    total: usize,
    height: usize,
) -> Result<SeatFit, Refusal>
    ensures { FitsSeat seat.entry collapse total height result }
{
    let body = body_of(seat.lines, collapse);
    if too_wide(body, seat.width, total, height) || lines_overlap(body.lines, height, seat.to) {
        return Err(Refusal::OverhangMisfit);
    }
    Ok(SeatFit {
        join: body.bottom.and_then(|border| last_join(border.segments)),
        through: through_cols(body.lines, seat, height),
    })
}
