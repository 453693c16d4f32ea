// Lines of a sheet, of a cell or of a cell that hangs: L, B and G fields; and the names that wait on a sheet, F (refusals 1 and 3).
ghost use Rattle.std.specs.Prelude.{◌≡◌};
ghost use Rattle.fields.specs.Field.{raws};
ghost use Rattle.fields.specs.List.{whole_of};
ghost use Rattle.fields.specs.Refusal.{number_of};
ghost use Rattle.fields.specs.SpanRefusals.{line_refusal, lines_refusal, names_refusal};

use crate::holed::check_holed;
use fields::check::check_fields;
use fields::judge::{check_border, check_name, check_piece};
use fields::raw::Field;
use fields::refusal::Refusal;

// An L field holds pieces; a B field is a border, and a G field one with holes.
#[tactic(auto, using(crate::proofs::LineLaws::no_line))]
fn check_line(field: Field<'_>) -> Result<(), Refusal>
    ensures { number_of result ≡ line_refusal (whole_of field.entry) }
{
    match field.letter {
        b'L' => check_fields(
            field.content,
            |piece| check_piece(piece.letter, piece.content),
        ),
        b'B' => check_border(field.content),
        b'G' => check_holed(field),
        _ => Err(Refusal::CrookedRecord),
    }
}

// The refusal that is given first of all lines.
pub fn check_lines(lines: &[u8]) -> Result<(), Refusal>
    ensures { number_of result ≡ lines_refusal (raws lines.now) }
{
    check_fields(lines, check_line)
}

// The refusal that is given first of all names that wait.
pub fn check_names(names: &[u8]) -> Result<(), Refusal>
    ensures { number_of result ≡ names_refusal (raws names.now) }
{
    check_fields(names, |name| check_name(name.letter, name.content))
}
