// The old sheet's lines, the names that wait on it and the cells that hang from it, copied as they stand.
ghost use Rattle.std.specs.Prelude.{◌≡◌, ◌+◌, ◌≤◌, ◌<◌, length};
ghost use Rattle.fields.specs.Field.{raws};
ghost use Rattle.fields.specs.List.{whole_of};
ghost use Rattle.extend_lines.specs.Emitted.{InBounds, OneLineMore, CopiesLine, CopiesLines, HandsOn};

use crate::line::Lines;
use fields::list::Fields;
use fields::raw::Field;
use fields::store::{put_bytes, put_field};

// One line, as it stands.
fn copy_line(out: &mut [u8], lines: Lines, field: Field<'_>) -> Lines
    requires { InBounds lines }
    ensures one_line_more { OneLineMore lines result }
    ensures copies_line { CopiesLine out.old lines (whole_of field.entry) out.new result }
{
    Lines {
        at: put_field(out, lines.at, field.letter, field.content),
        count: lines.count + 1,
        ..lines
    }
}

// All of them.
pub fn copy_lines(out: &mut [u8], lines: Lines, body: &[u8]) -> Lines
    requires { InBounds lines × (lines.count + length (raws body.now) < 1000000) }
    ensures in_bounds { InBounds result × (result.count ≤ lines.count + length (raws body.now)) }
    ensures copies_lines { CopiesLines out.old lines body.now out.new result }
{
    let mut next = lines;
    for field in Fields::new(body) {
        if let Ok(field) = field {
            next = copy_line(out, next, field);
        }
    }
    next
}

// Names that wait and cells that hang from the sheet, handed on: its F and V fields behind the lines. The head does not count them.
pub fn hand_on(out: &mut [u8], lines: Lines, fields: &[u8]) -> Lines
    requires { InBounds lines }
    ensures count_value { result.count ≡ lines.count }
    ensures hands_on { HandsOn out.old lines fields.now out.new result }
{
    let at = put_bytes(out, lines.at, fields);
    Lines { at, ..lines }
}
