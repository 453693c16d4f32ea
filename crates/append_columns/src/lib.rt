// `append_columns_with_borders` (document 01, "Rows and blocks on a sheet", and requests 2.1 and 2.2): a row of cells beside each other, among
// them those that hang from the rows above; the border above it joined to their inner edges, the border below it likewise, with holes for the
// cells that hang on, and with collapsing the cells' first and last borders merged into the two. The row's first line takes the names that wait
// on the sheet; where the row has no line they wait on. No heap: the first 16 cells are kept in an array, a border is put together in 65,536
// bytes of stack, and a line that comes where the border is in 65,538.
#![tactic(auto)]

mod below;
mod lay;
mod old;
mod sheet;

ghost use Rattle.std.specs.Prelude.{◌≡◌};
ghost use Rattle.fields.specs.Answer.{rendered};
ghost use Rattle.fields.specs.Refusal.{number_of};
ghost use Rattle.rows.specs.Answer.{columns_answer};
ghost use Rattle.checks.proofs.Verdicts.{columns_number};

use crate::lay::lay;
use crate::sheet::OldSheet;
use checks::cells::check_cells;
use checks::sheet::check_sheet;
use fields::answer::refuse;
use fields::judge::check_width;
use fields::refusal::{Refusal, first_of};
use rows::RenderOptions;

// Refusals 1 to 3 of the inputs: the first of them all.
fn check_inputs(options: RenderOptions, sheet: &[u8], cells: &[u8]) -> Result<(), Refusal>
    ensures { number_of result ≡ columns_number options sheet.now cells.now }
{
    let inputs = first_of(check_sheet(sheet), check_cells(cells));
    first_of(inputs, check_width(options.width))
}

// The cells as a row under the sheet's last line, with the cells that hang from it; collapsing takes off the cells' first and last borders.
// Number, length and every byte of the store are those of `columns_answer`.
pub fn append_columns_with_borders(
    options: RenderOptions,
    sheet: &[u8],
    cells: &[u8],
    collapse: bool,
    store: &mut [u8],
) -> Result<usize, Refusal>
    ensures { rendered result store.new ≡ columns_answer options sheet.now cells.now collapse store.old }
{
    if let Err(refusal) = check_inputs(options, sheet, cells) {
        return refuse(refusal, store);
    }
    let old = OldSheet::of(sheet);
    lay(options, &old, cells, collapse, store)
}
