// The inputs of the two calls: refusals 1 to 3 over all of them, and the parts of a sheet that passed.
ghost use Rattle.std.specs.Prelude.{◌≡◌, ◌≤◌, length};
ghost use Rattle.fields.specs.Field.{raws};
ghost use Rattle.fields.specs.Refusal.{number_of};
ghost use Rattle.fields.specs.SpanRefusals.{sheet_refusal};
ghost use Rattle.checks.proofs.Verdicts.{subrender_number, vert_row_number};
ghost use Rattle.append_subrender.specs.Inputs.{Splits};

use checks::cells::check_plain_cells;
use checks::sheet::{check_sheet, sheet_parts};
use fields::judge::check_width;
use fields::prefixes::check_prefixes;
use fields::refusal::{Refusal, first_of};
use rows::RenderOptions;

// Refusals 1 to 3 of the inputs of `append_subrender`: the first of them all.
pub fn check_subrender(
    options: RenderOptions,
    sheet: &[u8],
    guest: &[u8],
    prefixes: &[u8],
) -> Result<(), Refusal>
    ensures { number_of result ≡ subrender_number options sheet.now guest.now prefixes.now }
{
    let sheets = first_of(check_sheet(sheet), check_sheet(guest));
    let rest = first_of(check_prefixes(prefixes), check_width(options.width));
    first_of(sheets, rest)
}

// Refusals 1 to 3 of the inputs of `append_vert_row`: the first of them all.
pub fn check_vert_row(options: RenderOptions, sheet: &[u8], cells: &[u8]) -> Result<(), Refusal>
    ensures { number_of result ≡ vert_row_number options sheet.now cells.now }
{
    let inputs = first_of(check_sheet(sheet), check_plain_cells(cells));
    first_of(inputs, check_width(options.width))
}

// A sheet's lines, the names that wait on it, and all that stands behind the lines: these names and the cells that hang from it.
#[derive(Clone, Copy)]
pub struct SheetParts<'a> {
    pub lines: &'a [u8],
    pub names: &'a [u8],
    pub behind: &'a [u8],
}

// The parts of a sheet that passed.
pub fn split_sheet<'a>(sheet: &'a [u8]) -> SheetParts<'a>
    requires { sheet_refusal sheet.now ≡ 0 }
    ensures few { length (raws result.lines.now) ≤ 65535 }
    ensures within { length result.names.now ≤ length result.behind.now }
    ensures splits { Splits sheet.now result.lines.now result.names.now result.behind.now }
{
    let at = sheet_parts(sheet);
    SheetParts {
        lines: &sheet[5..at.names],
        names: &sheet[at.names..at.hanging],
        behind: &sheet[at.names..],
    }
}
