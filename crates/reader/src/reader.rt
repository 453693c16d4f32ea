// A reader of a whole sheet: its lines, the names that wait behind them, and the cells that hang behind those.
ghost use Rattle.std.specs.Prelude.{◌≡◌, drop, false};
ghost use Rattle.fields.specs.Field.{raws};
ghost use Rattle.reader.specs.Reading.{left, items, read_line, read_name, read_hanging, lines_end, names_end};

use crate::hanging::Overhang;
use crate::line::Lines;
use crate::waiting::Names;

// Where the lines begin, behind the head.
const HEAD: usize = 5;

// A reader of a sheet.
#[derive(Clone, Copy, Debug, Drop)]
pub struct Reader<'a> {
    sheet: &'a [u8],
}

impl<'a> Reader<'a> {
    // A reader of a sheet's bytes, whatever they are.
    pub fn new(sheet: &'a [u8]) -> Self
        ensures { result.sheet ≡ sheet.entry }
    {
        Reader { sheet }
    }

    // The lines.
    pub fn lines(&self) -> Lines<'a>
        ensures gives { left read_line result ≡ items read_line (raws (drop 5 self.now.sheet.now)) }
        ensures bytes { result.bytes ≡ self.now.sheet }
        ensures place { result.at ≡ 5 }
        ensures fresh { result.is_over ≡ false }
    {
        Lines::new(self.sheet, HEAD)
    }

    // The names that wait, behind the lines.
    #[tactic(auto, unfolding(crate::specs::Reading::lines_end))]
    pub fn names(&self) -> Names<'a>
        ensures gives { left read_name result ≡ items read_name (raws (drop (lines_end self.now.sheet.now) self.now.sheet.now)) }
        ensures bytes { result.bytes ≡ self.now.sheet }
        ensures place { result.at ≡ lines_end self.now.sheet.now }
        ensures fresh { result.is_over ≡ false }
    {
        Names::new(self.sheet, self.lines().end())
    }

    // The hanging cells, behind the lines and the names.
    #[tactic(auto, unfolding(crate::specs::Reading::names_end))]
    pub fn overhang(&self) -> Overhang<'a>
        ensures gives { left read_hanging result ≡ items read_hanging (raws (drop (names_end self.now.sheet.now) self.now.sheet.now)) }
        ensures bytes { result.bytes ≡ self.now.sheet }
        ensures place { result.at ≡ names_end self.now.sheet.now }
        ensures fresh { result.is_over ≡ false }
    {
        Overhang::new(self.sheet, self.names().end())
    }
}
