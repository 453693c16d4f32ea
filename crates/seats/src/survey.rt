// What a row is asked before anything is written: one walk over its seats.
ghost use Rattle.std.specs.Prelude.{◌≡◌, ◌≤◌};
ghost use Rattle.seats.specs.Survey.{SharesIn, Shares, SeenIn, Looks, SurveyIn, Surveys};

use crate::row::Row;
use bodies::body::body_of;
use bodies::walk::starts_border;
use slots::seat::Seat;

// Whether some seat starts with a border; the row's width; its height; and whether each seat is of one row, no wider than the row and
// without a line with holes.
#[derive(Clone, Copy, Debug, PartialEq, Eq)]
pub struct Surveyed {
    pub top: bool,
    pub total: usize,
    pub height: usize,
    pub plain: bool,
}

// The same of the seats so far: the widest of them in place of the row's width.
#[derive(Clone, Copy, Debug, PartialEq, Eq)]
struct Seen {
    top: bool,
    widest: usize,
    height: usize,
    single: bool,
}

// The lines of one row of a seat that spans some, rounded down.
pub fn share(count: usize, span: usize) -> usize
    ensures shares_in { SharesIn count result }
    ensures shares { Shares count span result }
{
    if span <= 1 { count } else { count / span }
}

// One seat more.
fn look(seen: Seen, seat: Seat<'_>, collapse: bool) -> Seen
    ensures seen_in { SeenIn seen result }
    ensures looks { Looks seen seat.entry collapse result }
{
    let body = body_of(seat.lines, collapse);
    Seen {
        top: seen.top || starts_border(seat.lines),
        widest: seen.widest.max(seat.width),
        height: seen.height.max(share(body.count, seat.span)),
        single: seen.single && seat.span == 1 && !body.holed,
    }
}

// What is found of a row.
pub fn survey(row: &Row<'_>, collapse: bool) -> Surveyed
    ensures survey_in { SurveyIn result }
    ensures surveys { Surveys row.now collapse result }
{
    let mut seen = Seen {
        top: false,
        widest: 0,
        height: 0,
        single: true,
    };
    // No `for`, since the seats tell the row's width once none is left.
    let mut seats = row.iter();
    while let Some(seat) = seats.next() {
        seen = look(seen, seat, collapse);
    }
    let total = seats.width();
    Surveyed {
        top: seen.top,
        total,
        height: seen.height,
        plain: seen.single && seen.widest <= total,
    }
}
