// `append_subrender` and `append_vert_row` (document 01, "Rows and blocks on a sheet", and requests 2.1 and 2.2): a guest's lines behind
// their prefixes, and cells below each other with borders between them. The first text that is added takes the names that wait on the sheet.
// The names that still wait on the sheet and the cells that hang from it are handed on, and those of the guest are dropped.
#![tactic(auto)]

mod cells;
mod inputs;
mod misfit;
mod prefix;
mod prefixed;

ghost use Rattle.std.specs.Prelude.{◌≡◌};
ghost use Rattle.fields.specs.Answer.{rendered};
ghost use Rattle.rows.specs.Answer.{subrender_answer, vert_row_answer};

use crate::cells::{add_cells, add_rule_if};
use crate::inputs::{check_subrender, check_vert_row, split_sheet};
use crate::misfit::{cells_misfit, guest_misfit};
use crate::prefixed::add_guest;
use extend_lines::copy::{copy_lines, hand_on};
use extend_lines::line::Lines;
use fields::answer::refuse;
use fields::refusal::Refusal;
use rows::RenderOptions;

// The guest sheet's lines and the prefixes in pairs, which end with the shorter list; the last prefix repeats if the flag
// says so. Number, length and every byte of the store are those of `subrender_answer`.
pub fn append_subrender(
    options: RenderOptions,
    sheet: &[u8],
    guest: &[u8],
    prefixes: &[u8],
    repeats: bool,
    store: &mut [u8],
) -> Result<usize, Refusal>
    ensures { rendered result store.new ≡ subrender_answer options sheet.now guest.now prefixes.now repeats store.old }
{
    if let Err(refusal) = check_subrender(options, sheet, guest, prefixes) {
        return refuse(refusal, store);
    }
    let theirs = split_sheet(guest);
    if guest_misfit(theirs.lines, prefixes, repeats) {
        return refuse(Refusal::OverhangMisfit, store);
    }
    let ours = split_sheet(sheet);
    let old = copy_lines(store, Lines::new(), ours.lines);
    let new = add_guest(
        store,
        old,
        options,
        ours.names,
        theirs.lines,
        prefixes,
        repeats,
    );
    let all = hand_on(store, new.lines, &ours.behind[new.from..]);
    all.close(store)
}

// The cells below each other, each with an empty prefix; borders of HorizVert between them and one of Horiz at the end, if
// borders are on. Number, length and every byte of the store are those of `vert_row_answer`.
pub fn append_vert_row(
    options: RenderOptions,
    sheet: &[u8],
    cells: &[u8],
    store: &mut [u8],
) -> Result<usize, Refusal>
    ensures { rendered result store.new ≡ vert_row_answer options sheet.now cells.now store.old }
{
    if let Err(refusal) = check_vert_row(options, sheet, cells) {
        return refuse(refusal, store);
    }
    if cells_misfit(cells) {
        return refuse(Refusal::OverhangMisfit, store);
    }
    let ours = split_sheet(sheet);
    let old = copy_lines(store, Lines::new(), ours.lines);
    let stacked = add_cells(store, old, options, ours.names, cells);
    let lines = add_rule_if(store, stacked.lines, options, 0, options.borders);
    let all = hand_on(store, lines, &ours.behind[stacked.from..]);
    all.close(store)
}
