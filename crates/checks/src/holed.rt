// The holes of a border (G): each has a place and an S or F field, and ends within the segments (refusals 1 and 3).
ghost use Rattle.std.specs.Prelude.{◌≡◌, Ok};
ghost use Rattle.fields.specs.Field.{whole};
ghost use Rattle.fields.specs.Refusal.{number_of};
ghost use Rattle.fields.specs.Spans.{raw_holes};
ghost use Rattle.fields.specs.SpanRefusals.{hole_refusal, holes_refusal, line_refusal};
ghost use Rattle.places.specs.Holes.{raw_item};
ghost use Rattle.checks.specs.Walk.{past_refusal};

use fields::judge::{all_segments, check_piece};
use fields::raw::Field;
use fields::refusal::{Refusal, first_of};
use fields::width::text_width;
use places::holes::{Hole, Holes};

// A hole that ends past the last segment is a crooked record.
fn check_end(segments: usize, end: usize) -> Result<(), Refusal>
    ensures { number_of result ≡ past_refusal segments end }
{
    if segments < end {
        return Err(Refusal::CrookedRecord);
    }
    Ok(())
}

// A hole of a border of so many segments: 1 or 3 of its field, or 1 where that passes and ends past the last segment.
#[tactic(auto, using(crate::proofs::HoleLaws::text_size))]
fn check_hole(segments: usize, hole: Hole<'_>) -> Result<(), Refusal>
    ensures { number_of result ≡ hole_refusal segments (raw_item (Ok hole.entry)) }
{
    let Field { letter, content } = hole.piece;
    let place = usize::from(hole.place);
    check_piece(letter, content)?;
    if letter == b'F' {
        return check_end(segments, place);
    }
    check_end(segments, place + text_width(&content[1..]))
}

// The refusal that is given first of all holes of a border of so many segments; a rest that is no hole is a crooked record.
fn check_holes(holes: &[u8], segments: usize) -> Result<(), Refusal>
    ensures { number_of result ≡ holes_refusal segments (raw_holes holes.now) }
{
    let mut worst = Ok(());
    for hole in Holes::new(holes) {
        let Ok(hole) = hole else {
            return Err(Refusal::CrookedRecord);
        };
        worst = first_of(worst, check_hole(segments, hole));
    }
    worst
}

// The content of a G field: an annotation, the number of segments in two bytes, the segments, and at least one hole.
#[tactic(auto, using(crate::proofs::HoleLaws::short_holed))]
pub fn check_holed(field: Field<'_>) -> Result<(), Refusal>
    ensures { number_of result ≡ line_refusal (whole 0x47 field.entry.content.now) }
{
    let [_, high, low, rest @ ..] = field.content else {
        return Err(Refusal::CrookedRecord);
    };
    let count = usize::from(*high) * 256 + usize::from(*low);
    let Some((segments, holes)) = rest.split_at_checked(count) else {
        return Err(Refusal::CrookedRecord);
    };
    if holes.is_empty() || !all_segments(segments) {
        return Err(Refusal::CrookedRecord);
    }
    check_holes(holes, count)
}
