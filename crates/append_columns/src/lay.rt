// The row: what is asked of it before anything is written, and its lines and its borders with what waits and what hangs on. What a function
// here requires, its callers in this crate show.
ghost use Rattle.std.specs.Prelude.{◌≡◌, not, ◌&&◌};
ghost use Rattle.extend_lines.specs.Emitted.{InBounds};
ghost use Rattle.seats.specs.Survey.{SurveyIn};
ghost use Rattle.append_columns.specs.Lay.{Asks, HandsNames, AddsAll, Lays};

use crate::below::add_below;
use crate::old::add_old;
use crate::sheet::OldSheet;
use extend_lines::copy::hand_on;
use extend_lines::line::Lines;
use fields::answer::refuse;
use fields::refusal::Refusal;
use overhang::hang::hang_on;
use row_fit::row::row_fit;
use row_lines::full::add_row;
use rows::RenderOptions;
use seats::row::Row;
use seats::survey::{Surveyed, survey};

// Collapsing meets a first border, and there is no border above it.
fn no_border_above(top: bool, joined: bool, collapse: bool) -> bool
    ensures { result ≡ (collapse && top && not joined) }
{
    collapse && top && !joined
}

// What is asked of a row before anything is written, refusal 6 and then 10: whether the border below it has holes. Of a plain row it is known.
fn ask(row: &Row<'_>, joined: bool, collapse: bool, surveyed: Surveyed) -> Result<bool, Refusal>
    requires { SurveyIn surveyed }
    ensures { Asks row.now joined collapse surveyed result }
{
    if no_border_above(surveyed.top, joined, collapse) {
        return Err(Refusal::NoBorderAbove);
    }
    if surveyed.plain {
        return Ok(false);
    }
    row_fit(row, collapse, joined, surveyed.total, surveyed.height)
}

// The names that wait on the sheet are handed on where the row has no line to take them.
fn hand_names(out: &mut [u8], lines: Lines, names: &[u8], height: usize) -> Lines
    requires { InBounds lines }
    ensures { HandsNames out.old lines names.now height out.new result }
{
    if height == 0 {
        return hand_on(out, lines, names);
    }
    lines
}

// The old lines, the row's, the border below it, the names that wait on and what hangs on: of a plain row nothing does.
fn add_all(
    options: RenderOptions,
    old: &OldSheet<'_>,
    row: &Row<'_>,
    collapse: bool,
    surveyed: Surveyed,
    holes: bool,
    store: &mut [u8],
) -> Result<usize, Refusal>
    requires { SurveyIn surveyed }
    ensures { AddsAll options old.now row.now collapse surveyed holes store.old result store.new }
{
    let height = surveyed.height;
    let mut buffer = [0u8; 65536];
    let above = add_old(store, old, row, collapse, &mut buffer);
    let rows = add_row(
        store,
        above,
        old.names,
        options,
        row,
        collapse,
        &mut buffer,
        height,
    );
    let lines = add_below(
        store,
        rows,
        options,
        row,
        old.joined(),
        collapse,
        surveyed,
        holes,
        &mut buffer,
    );
    let tail = hand_names(store, lines, old.names, height);
    if surveyed.plain {
        return tail.close(store);
    }
    let all = hang_on(store, tail, options, row, collapse, height);
    all.close(store)
}

// The row under the old sheet.
pub fn lay(
    options: RenderOptions,
    old: &OldSheet<'_>,
    cells: &[u8],
    collapse: bool,
    store: &mut [u8],
) -> Result<usize, Refusal>
    ensures { Lays options old.now cells.now collapse store.old result store.new }
{
    let row = Row::new(cells, old.hanging);
    let surveyed = survey(&row, collapse);
    match ask(&row, old.joined(), collapse, surveyed) {
        Err(refusal) => refuse(refusal, store),
        Ok(holes) => add_all(options, old, &row, collapse, surveyed, holes, store),
    }
}
