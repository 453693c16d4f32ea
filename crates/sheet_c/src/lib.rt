// The calls for C and for languages that call as C does (include/sheet.h): each gives back the number, 0 or the refusal, and
// puts the length behind `length`. A slice passes as a pointer and a length. Nothing is required beyond what C's types say: pointers to
// as many bytes, of which the store and the length overlap nothing else.
#![tactic(auto)]

ghost use Rattle.std.specs.Prelude.{◌≡◌};
ghost use Rattle.block.specs.Answer.{render_answer};
ghost use Rattle.rows.specs.Answer.{subrender_answer, columns_answer, vert_row_answer};
ghost use Rattle.sheet_c.specs.CAnswer.{answer, CAnswer, options};

use append_columns::append_columns_with_borders;
use append_subrender::{append_subrender, append_vert_row};
use fields::refusal::Refusal;
use render::render;
use rows::RenderOptions;

// The number of what a call says, and its length: the sheet's, 0 for a refusal, and for refusal 8 the length needed.
fn tell(said: Result<usize, Refusal>, length: &mut u64) -> u8
    ensures { CAnswer said result length.new }
{
    match said {
        Ok(bytes) => {
            *length = bytes as u64;
            0
        }
        Err(refusal) => {
            *length = refusal.needed() as u64;
            refusal.number()
        }
    }
}

// What comes with a call on a sheet.
fn given(width: u8, pad: bool, borders: bool, annotation: u8) -> RenderOptions
    ensures { result ≡ options width pad borders annotation }
{
    RenderOptions {
        width,
        pad,
        borders,
        annotation,
    }
}

// The sheet of a job. Number, length and every byte of the store are those of `render_answer`.
#[unsafe(no_mangle)]
pub extern "C" fn sheet_render(job: &[u8], store: &mut [u8], length: &mut u64) -> u8
    ensures { answer result length.new store.new ≡ render_answer job.now store.old }
{
    let said = render(job, store);
    tell(said, length)
}

// A guest's lines behind their prefixes. Number, length and every byte of the store are those of `subrender_answer`.
#[unsafe(no_mangle)]
pub extern "C" fn sheet_append_subrender(
    sheet: &[u8],
    guest: &[u8],
    prefixes: &[u8],
    repeat_last: bool,
    width: u8,
    pad: bool,
    borders: bool,
    annotation: u8,
    store: &mut [u8],
    length: &mut u64,
) -> u8
    ensures { answer result length.new store.new
        ≡ subrender_answer (options width pad borders annotation) sheet.now guest.now prefixes.now repeat_last store.old }
{
    let options = given(width, pad, borders, annotation);
    let said = append_subrender(options, sheet, guest, prefixes, repeat_last, store);
    tell(said, length)
}

// Cells beside each other. Number, length and every byte of the store are those of `columns_answer`.
#[unsafe(no_mangle)]
pub extern "C" fn sheet_append_columns_with_borders(
    sheet: &[u8],
    cells: &[u8],
    collapse: bool,
    width: u8,
    pad: bool,
    borders: bool,
    annotation: u8,
    store: &mut [u8],
    length: &mut u64,
) -> u8
    ensures { answer result length.new store.new
        ≡ columns_answer (options width pad borders annotation) sheet.now cells.now collapse store.old }
{
    let options = given(width, pad, borders, annotation);
    let said = append_columns_with_borders(options, sheet, cells, collapse, store);
    tell(said, length)
}

// Cells below each other. Number, length and every byte of the store are those of `vert_row_answer`.
#[unsafe(no_mangle)]
pub extern "C" fn sheet_append_vert_row(
    sheet: &[u8],
    cells: &[u8],
    width: u8,
    pad: bool,
    borders: bool,
    annotation: u8,
    store: &mut [u8],
    length: &mut u64,
) -> u8
    ensures { answer result length.new store.new ≡ vert_row_answer (options width pad borders annotation) sheet.now cells.now store.old }
{
    let options = given(width, pad, borders, annotation);
    let said = append_vert_row(options, sheet, cells, store);
    tell(said, length)
}
