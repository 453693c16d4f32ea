// Refusal 10 of a border with holes.
ghost use Rattle.fields.specs.List.{whole_of};
ghost use Rattle.holes.specs.Overlap.{FindsOverlap, TellsLine, TellsLines};

use crate::cols::piece_cols;
use fields::list::Fields;
use fields::raw::Field;
use places::border::Border;
use places::holes::Holes;

// `to_string` of a border of so many segments would panic: a hole begins before the one ahead of it ends, or past the last segment.
pub fn overlaps(holes: &[u8], count: usize) -> bool
    ensures { FindsOverlap holes.now count result }
{
    let mut pos: usize = 0;
    for hole in Holes::new(holes) {
        let Ok(hole) = hole else {
            return false;
        };
        let place = usize::from(hole.place);
        if place < pos || count < place {
            return true;
        }
        pos = place + piece_cols(hole.piece);
    }
    false
}

// The same of a line, stretched to a width: only a G field has holes.
fn line_overlaps(line: Field<'_>, to: usize) -> bool
    ensures { TellsLine (whole_of line.entry) to result }
{
    if line.letter != b'G' {
        return false;
    }
    let border = Border::of(line);
    overlaps(border.holes, border.segments.len().max(to))
}

// The same of one of the first lines, so many at most.
pub fn lines_overlap(lines: &[u8], most: usize, to: usize) -> bool
    ensures { TellsLines lines.now most to result }
{
    for line in Fields::new(lines).take(most) {
        let Ok(line) = line else {
            return false;
        };
        if line_overlaps(line, to) {
            return true;
        }
    }
    false
}
