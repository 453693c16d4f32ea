// A sheet: one H field, then as many L, B and G fields as it says, then F fields, then V fields (refusals 1, 2 and 3).
ghost use Rattle.std.specs.Prelude.{◌≡◌};
ghost use Rattle.fields.specs.Field.{raws};
ghost use Rattle.fields.specs.Refusal.{number_of};
ghost use Rattle.fields.specs.SpanRefusals.{sheet_refusal};
ghost use Rattle.checks.specs.Split.{SplitAt, BodyAt, PartsIn, FindsParts, counted_refusal};

use crate::cells::check_hanging;
use crate::line::{check_lines, check_names};
use fields::check::check_fields;
use fields::list::Fields;
use fields::refusal::{Refusal, first_of};

// Where the fields before the first one with a letter end, and how many they are.
#[derive(Clone, Copy, Debug, PartialEq, Eq)]
pub struct Split {
    pub end: usize,
    pub count: usize,
}

// Of the fields behind a head: where the names begin, where the cells that hang begin, and the number of the lines.
#[derive(Clone, Copy, Debug, PartialEq, Eq)]
pub struct Body {
    pub names: usize,
    pub hanging: usize,
    pub count: usize,
}

// Where the names that wait on a sheet begin, at the end of its lines, and where the cells that hang from it begin, at the end of the names.
#[derive(Clone, Copy, Debug, PartialEq, Eq)]
pub struct Parts {
    pub names: usize,
    pub hanging: usize,
}

// The fields split at the first one with a letter; a rest that is no field counts as one.
#[tactic(auto, using(crate::proofs::SplitLaws::pass_fits, crate::proofs::SplitLaws::rest_fits))]
fn split_fields(body: &[u8], letter: u8) -> Split
    ensures { SplitAt letter body.now result }
{
    let mut end = 0;
    let mut count = 0;
    for field in Fields::new(body) {
        let Ok(field) = field else {
            return Split {
                end: body.len(),
                count: count + 1,
            };
        };
        if field.letter == letter {
            break;
        }
        end += 3 + field.content.len();
        count += 1;
    }
    Split { end, count }
}

// The fields behind a head, split at the first V, and what stands before it at the first F.
fn body_parts(body: &[u8]) -> Body
    ensures { BodyAt body.now result }
{
    let all = split_fields(body, b'V');
    let hanging = all.end;
    let lines = split_fields(&body[..hanging], b'F');
    Body {
        names: lines.end,
        hanging,
        count: lines.count,
    }
}

// The places of a sheet's names that wait and of its cells that hang; bytes without a head have both at their end.
pub fn sheet_parts(sheet: &[u8]) -> Parts
    ensures parts_in { PartsIn sheet.now result }
    ensures finds_parts { FindsParts sheet.now result }
{
    let Some(body) = sheet.get(5..) else {
        return Parts {
            names: sheet.len(),
            hanging: sheet.len(),
        };
    };
    let found = body_parts(body);
    Parts {
        names: 5 + found.names,
        hanging: 5 + found.hanging,
    }
}

// The fields behind a head that says so many lines: a crooked record for another number of lines, and else the refusal that is given first.
#[tactic(auto, using(crate::proofs::SheetLaws::wrong_count))]
fn check_counted(count: usize, body: &[u8]) -> Result<(), Refusal>
    ensures { number_of result ≡ counted_refusal count (raws body.now) }
{
    let found = body_parts(body);
    if found.count != count {
        return Err(Refusal::CrookedRecord);
    }
    let lines = check_lines(&body[..found.names]);
    let names = check_names(&body[found.names..found.hanging]);
    let hanging = check_fields(&body[found.hanging..], check_hanging);
    first_of(lines, first_of(names, hanging))
}

// The refusal of a whole sheet, in the order 1, 2, 3.
#[tactic(auto, using(crate::proofs::SheetLaws::no_head, crate::proofs::SheetLaws::headed_sheet))]
pub fn check_sheet(sheet: &[u8]) -> Result<(), Refusal>
    ensures { number_of result ≡ sheet_refusal sheet.now }
{
    let [b'H', 0, 2, high, low, body @ ..] = sheet else {
        return Err(Refusal::CrookedRecord);
    };
    check_counted(usize::from(*high) * 256 + usize::from(*low), body)
}
