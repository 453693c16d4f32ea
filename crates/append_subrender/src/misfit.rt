// Refusal 10 of the two calls, told before anything is written: a border that becomes text and whose holes overlap.
ghost use Rattle.fields.specs.List.{whole_of};
ghost use Rattle.append_subrender.specs.Misfit.{TellsGuest, TellsCell, TellsCells};

use fields::list::{Fields, count_fields};
use fields::raw::Field;
use holes::overlap::lines_overlap;

// A line of the guest that has a prefix: all lines where a last prefix repeats, else as many as there are prefixes.
pub fn guest_misfit(guest: &[u8], prefixes: &[u8], repeats: bool) -> bool
    ensures { TellsGuest guest.now prefixes.now repeats result }
{
    let count = count_fields(prefixes);
    if count == 0 {
        return false;
    }
    if repeats {
        return lines_overlap(guest, guest.len(), 0);
    }
    lines_overlap(guest, count, 0)
}

// A line of a cell: those behind its width.
fn cell_misfit(cell: Field<'_>) -> bool
    ensures { TellsCell (whole_of cell.entry) result }
{
    match cell.content {
        [_, lines @ ..] => lines_overlap(lines, lines.len(), 0),
        _ => false,
    }
}

// A line of one of the cells.
pub fn cells_misfit(cells: &[u8]) -> bool
    ensures { TellsCells cells.now result }
{
    for cell in Fields::new(cells) {
        if let Ok(cell) = cell {
            if cell_misfit(cell) {
                return true;
            }
        }
    }
    false
}
