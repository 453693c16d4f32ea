// What becomes of the white space of a text (`WhiteSpace`), and how a tag has it: annotation and mode in one number.
ghost use Rattle.std.specs.Prelude.{◌≡◌, ◌<◌};
ghost use Rattle.block.specs.Tag.{tag};
ghost use Rattle.lines.specs.Bridge.{num};
ghost use Rattle.flush_word.specs.Modes.{mode, TagMode};

// Blanks collapse; they are kept; they are kept, and dropped where a line wraps.
#[derive(Clone, Copy, Debug, PartialEq, Eq)]
pub enum WhiteSpace {
    Normal,
    Pre,
    PreWrap,
}

// A byte that is the number of no mode.
#[derive(Clone, Copy, Debug, PartialEq, Eq)]
pub struct NoMode(pub u8);

impl TryFrom<u8> for WhiteSpace {
    ghost use Rattle.flush_word.specs.Modes.{ReadsMode};

    type Error = NoMode;

    ghost try_from_gives = { ReadsMode };

    fn try_from(byte: u8) -> Result<Self, NoMode> {
        match byte {
            0 => Ok(Self::Normal),
            1 => Ok(Self::Pre),
            2 => Ok(Self::PreWrap),
            _ => Err(NoMode(byte)),
        }
    }
}

impl WhiteSpace {
    // The mode of a tag.
    pub fn of_tag(tag: u32) -> WhiteSpace
        ensures { TagMode tag result }
    {
        match tag / 65536 {
            0 => Self::Normal,
            1 => Self::Pre,
            _ => Self::PreWrap,
        }
    }

    // The tag of an annotation and this mode.
    #[tactic(auto, using(crate::proofs::Modes::number_of))]
    pub fn tag(self, annotation: u32) -> u32
        requires { annotation < 256 }
        ensures { result ≡ num (tag annotation (mode self)) }
    {
        annotation + 65536 * (self as u32)
    }
}
