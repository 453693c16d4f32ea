// Why a call is refused: the reasons and their numbers (include/sheet.h), one enum for all calls.
ghost use Rattle.std.specs.Prelude.{◌≡◌};
ghost use Rattle.fields.specs.Refusal.{number, needed, number_of};
ghost use Rattle.fields.specs.First.{first_of};
ghost use Rattle.fields.specs.declared.refusal.Refusal.TheVariants.{CrookedRecord};

use crate::raw::Broken;
use std::error::Error;
use std::fmt;

// Why a call is refused; a store that is too short comes with the length that is needed.
#[derive(Clone, Copy, Debug, PartialEq, Eq)]
pub enum Refusal {
    CrookedRecord,
    NoWidth,
    StrangeCharacter,
    OverfullJob,
    TooNarrow,
    NoBorderAbove,
    LongLine,
    StoreShort(usize),
    LongSheet,
    OverhangMisfit,
}

impl Refusal {
    // The refusal's number, 1 to 10.
    pub fn number(self) -> u8
        ensures { result ≡ number self }
    {
        match self {
            Refusal::CrookedRecord => 1,
            Refusal::NoWidth => 2,
            Refusal::StrangeCharacter => 3,
            Refusal::OverfullJob => 4,
            Refusal::TooNarrow => 5,
            Refusal::NoBorderAbove => 6,
            Refusal::LongLine => 7,
            Refusal::StoreShort(_) => 8,
            Refusal::LongSheet => 9,
            Refusal::OverhangMisfit => 10,
        }
    }

    // The length that a store needs; 0 for all refusals but a store that is too short.
    pub fn needed(self) -> usize
        ensures { result ≡ needed self }
    {
        match self {
            Refusal::StoreShort(length) => length,
            _ => 0,
        }
    }
}

impl fmt::Display for Refusal {
    fn fmt<W: fmt::Write>(&self, f: &mut fmt::Formatter<W>) -> fmt::Result {
        f.write_str(match self {
            Refusal::CrookedRecord => "a field breaks the format, is missing or out of place",
            Refusal::NoWidth => "a width is 0",
            Refusal::StrangeCharacter =>
                "not well-formed UTF-8, or a character that is off the list",
            Refusal::OverfullJob => "the texts and names of a job have over 4,096 bytes",
            Refusal::TooNarrow => "a character is wider than its line",
            Refusal::NoBorderAbove => "collapsing meets a first border under no border",
            Refusal::LongLine => "a line has over 65,535 bytes",
            Refusal::StoreShort(_) => "the sheet is longer than the store",
            Refusal::LongSheet => "the sheet has over 65,535 lines",
            Refusal::OverhangMisfit =>
                "holes overlap or end past their border, or a hanging cell does not fit",
        })
    }
}

impl Error for Refusal {}

// A rest that is no field is a crooked record.
impl From<Broken> for Refusal {
    ghost from_gives = { λ _ refusal. refusal ≡ CrookedRecord };

    fn from(_rest: Broken) -> Refusal {
        Refusal::CrookedRecord
    }
}

// Of two checks the one that is answered: the refusal with the smaller number, if there is one.
pub fn first_of(a: Result<(), Refusal>, b: Result<(), Refusal>) -> Result<(), Refusal>
    ensures { number_of result ≡ first_of (number_of a) (number_of b) }
{
    match (a, b) {
        (Ok(()), _) => b,
        (_, Ok(())) => a,
        (Err(one), Err(other)) => if other.number() < one.number() { b } else { a },
    }
}
