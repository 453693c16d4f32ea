// The cells that hang from a sheet.
ghost use Rattle.std.specs.Prelude.{◌<◌, length};

use fields::raw::Field;

// A V field: its position, its width, the rows left to it, and its lines.
#[derive(Clone, Copy)]
pub struct HangingCell<'a> {
    pub pos: u16,
    pub width: u8,
    pub rows: u8,
    pub lines: &'a [u8],
    pub ghost short: { length lines.now < 65536 },
}

impl<'a> HangingCell<'a> {
    ghost use Rattle.slots.specs.Hanging.{ReadsHanging};

    // The hanging cell that a field is.
    pub fn of(field: Field<'a>) -> Option<HangingCell<'a>>
        ensures { ReadsHanging field.entry result }
    {
        let [high, low, width, rows, lines @ ..] = field.content else {
            return None;
        };
        Some(HangingCell {
            pos: u16::from_be_bytes([*high, *low]),
            width: *width,
            rows: *rows,
            lines,
        })
    }
}
