// The old sheet by its parts.
ghost use Rattle.std.specs.Prelude.{◌+◌, ◌^◌, ◌≤◌, ◌<◌, length};
ghost use Rattle.fields.specs.Field.{raws};
ghost use Rattle.append_columns.specs.Last.{SplitsLast};

use bodies::walk::walk_lines;
use checks::sheet::sheet_parts;
use places::border::Border;

// A sheet's lines, without the last one if it is a border; that border; the names that wait on the sheet; and the cells that hang from it.
#[derive(Clone, Copy)]
pub struct OldSheet<'a> {
    pub lines: &'a [u8],
    pub last: Option<Border<'a>>,
    pub names: &'a [u8],
    pub hanging: &'a [u8],
    pub ghost few: { length (raws lines.now) ≤ 65535 },
    pub ghost near: { length names.now + length hanging.now < 2 ^ 63 },
}

// The last of some lines if it is a border, and the lines before it; else all lines.
fn split_last(lines: &[u8]) -> (&[u8], Option<Border<'_>>)
    ensures { SplitsLast lines.now result }
{
    let walked = walk_lines(lines);
    match walked.last {
        Some(last) if last.letter != b'L' => (walked.before, Some(Border::of(last))),
        _ => (lines, None),
    }
}

impl<'a> OldSheet<'a> {
    ghost use Rattle.std.specs.Prelude.{◌≡◌};
    ghost use Rattle.fields.specs.SpanRefusals.{sheet_refusal};
    ghost use Rattle.append_columns.specs.Sheet.{joined, Splits};

    // The parts of a sheet that passed.
    pub fn of(sheet: &'a [u8]) -> OldSheet<'a>
        requires { sheet_refusal sheet.now ≡ 0 }
        ensures { Splits sheet.now result }
    {
        let at = sheet_parts(sheet);
        let lines = &sheet[5..at.names];
        let names = &sheet[at.names..at.hanging];
        let hanging = &sheet[at.hanging..];
        let (lines, last) = split_last(lines);
        OldSheet {
            lines,
            last,
            names,
            hanging,
        }
    }

    // Whether the lines end in a border, to which a row is joined.
    pub fn joined(&self) -> bool
        ensures { result ≡ joined self.now }
    {
        self.last.is_some()
    }
}
