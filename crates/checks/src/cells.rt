// A list of cells, at most 16, and the fields of one: C, K, and V for a cell that hangs from a sheet (refusals 1, 2 and 3).
ghost use Rattle.std.specs.Prelude.{◌≡◌, ℕ};
ghost use Rattle.fields.specs.Field.{Raw, whole, raws};
ghost use Rattle.fields.specs.Judged.{Judges};
ghost use Rattle.fields.specs.List.{whole_of};
ghost use Rattle.fields.specs.Refusal.{number_of};
ghost use Rattle.fields.specs.Spans.{is_span};
ghost use Rattle.fields.specs.SpanRefusals.{hanging_refusal, cell_refusal, plain_cell_refusal, cells_refusal, plain_cells_refusal};
ghost use Rattle.checks.specs.Walk.{body_refusal, few_refusal};

use crate::line::check_lines;
use fields::check::check_fields;
use fields::judge::check_width;
use fields::list::count_fields;
use fields::raw::Field;
use fields::refusal::{Refusal, first_of};

// Whether a row count is 1 to 16.
fn is_span(rows: u8) -> bool
    ensures { result ≡ is_span rows }
{
    (1..=16).contains(&rows)
}

// A width, not 0, and lines.
#[tactic(auto, unfolding(crate::specs::Walk::body_refusal))]
fn check_body(width: u8, lines: &[u8]) -> Result<(), Refusal>
    ensures { number_of result ≡ body_refusal width lines.now }
{
    first_of(check_lines(lines), check_width(width))
}

// The content of a C field: a width and lines.
#[tactic(auto, using(crate::proofs::LineLaws::short_plain, crate::proofs::LineLaws::plain_body))]
fn check_plain_content(content: &[u8]) -> Result<(), Refusal>
    ensures { number_of result ≡ plain_cell_refusal (whole 0x43 content.now) }
{
    match content {
        [width, lines @ ..] => check_body(*width, lines),
        _ => Err(Refusal::CrookedRecord),
    }
}

// The content of a K field: a width, the number of rows that it spans, and lines.
#[tactic(auto, using(crate::proofs::LineLaws::short_span, crate::proofs::LineLaws::wrong_span, crate::proofs::LineLaws::span_body))]
fn check_span_content(content: &[u8]) -> Result<(), Refusal>
    ensures { number_of result ≡ cell_refusal (whole 0x4B content.now) }
{
    match content {
        [width, rows, lines @ ..] if is_span(*rows) => check_body(*width, lines),
        _ => Err(Refusal::CrookedRecord),
    }
}

// The content of a V field: a position of two bytes, a width, the number of rows left, and lines.
#[tactic(auto, using(crate::proofs::LineLaws::short_hanging, crate::proofs::LineLaws::wrong_rows, crate::proofs::LineLaws::hanging_body))]
fn check_hanging_content(content: &[u8]) -> Result<(), Refusal>
    ensures { number_of result ≡ hanging_refusal (whole 0x56 content.now) }
{
    match content {
        [_, _, width, rows, lines @ ..] if is_span(*rows) => check_body(*width, lines),
        _ => Err(Refusal::CrookedRecord),
    }
}

// A cell that spans no rows is a C field.
#[tactic(auto, using(crate::proofs::LineLaws::no_plain))]
fn check_plain_cell(field: Field<'_>) -> Result<(), Refusal>
    ensures { number_of result ≡ plain_cell_refusal (whole_of field.entry) }
{
    match field.letter {
        b'C' => check_plain_content(field.content),
        _ => Err(Refusal::CrookedRecord),
    }
}

// A cell is a C or a K field.
#[tactic(auto, using(crate::proofs::LineLaws::no_span))]
fn check_cell(field: Field<'_>) -> Result<(), Refusal>
    ensures { number_of result ≡ cell_refusal (whole_of field.entry) }
{
    match field.letter {
        b'K' => check_span_content(field.content),
        _ => check_plain_cell(field),
    }
}

// A cell that hangs from a sheet is a V field.
#[tactic(auto, using(crate::proofs::LineLaws::no_hanging))]
pub fn check_hanging(field: Field<'_>) -> Result<(), Refusal>
    ensures { number_of result ≡ hanging_refusal (whole_of field.entry) }
{
    match field.letter {
        b'V' => check_hanging_content(field.content),
        _ => Err(Refusal::CrookedRecord),
    }
}

// At most 16 fields, each judged by the check; more are a crooked record.
#[tactic(auto, unfolding(crate::specs::Walk::few_refusal))]
fn check_few<F: Fn(Field<'_>) -> Result<(), Refusal>>(cells: &[u8], check: F) -> Result<(), Refusal>
    requires { F.IsAlwaysCallable check }
    ensures { (judge : Raw → ℕ) → Judges F.post check judge → number_of result ≡ few_refusal judge (raws cells.now) }
{
    if 16 < count_fields(cells) {
        return Err(Refusal::CrookedRecord);
    }
    check_fields(cells, check)
}

// The refusal of a list of C and K fields, in the order 1, 2, 3.
pub fn check_cells(cells: &[u8]) -> Result<(), Refusal>
    ensures { number_of result ≡ cells_refusal cells.now }
{
    check_few(cells, check_cell)
}

// The refusal of a list of C fields, in the order 1, 2, 3.
pub fn check_plain_cells(cells: &[u8]) -> Result<(), Refusal>
    ensures { number_of result ≡ plain_cells_refusal cells.now }
{
    check_few(cells, check_plain_cell)
}
