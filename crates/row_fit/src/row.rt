// Refusal 10 of a row of seats.
ghost use Rattle.std.specs.Prelude.{◌<◌, ◌^◌};
ghost use Rattle.row_fit.specs.Row.{FindsHoles, FindsRowFit};

use crate::reach::Reach;
use crate::seat::{seat_fit, seat_through};
use fields::refusal::Refusal;
use seats::row::Row;

// Whether the border below a row has holes, whether the row is refused or not.
pub fn row_has_holes(row: &Row<'_>, collapse: bool, height: usize) -> bool
    ensures { FindsHoles row.now collapse height result }
{
    for seat in row.iter() {
        if seat_through(seat, collapse, height).is_some() {
            return true;
        }
    }
    false
}

// Refusal 10 of the whole row, or whether the border below it has holes; joined says whether a border stands above it.
pub fn row_fit(
    row: &Row<'_>,
    collapse: bool,
    joined: bool,
    total: usize,
    height: usize,
) -> Result<bool, Refusal>
    requires { total < 2 ^ 20 }
    ensures { FindsRowFit row.now collapse joined total height result }
{
    let mut reach = Reach::first(total);
    let mut edge = false;
    for seat in row.iter() {
        let fit = seat_fit(seat, collapse, total, height)?;
        reach = reach.past(edge, fit, seat.width);
        edge = joined;
    }
    if reach.over {
        return Err(Refusal::OverhangMisfit);
    }
    Ok(reach.any)
}
