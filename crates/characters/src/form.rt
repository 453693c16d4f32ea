// The forms of two, three and four bytes of UTF-8 (the Unicode Standard, table 3-7): the code point put together with shifts and
// masks, and everything outside the table refused.
ghost use Rattle.std.specs.Prelude.{◌≡◌, ◌<◌};
ghost use Rattle.characters.specs.Forms.{in_range, second_from, second_to, more, two, three, four};

use crate::utf8::Char;

// A byte that continues a character.
#[tactic(auto, unfolding(crate::specs::Forms::in_range))]
fn continues(b: u8) -> bool
    ensures { result ≡ in_range 0x80 0xBF b }
{
    (0x80..=0xBF).contains(&b)
}

// A second byte after the first of a longer form. After E0 and F0 a lower one would be an overlong form; after ED a higher one
// would be a surrogate, and after F4 a value past 10FFFF.
#[tactic(auto, unfolding(crate::specs::Forms::in_range, crate::specs::Forms::second_from, crate::specs::Forms::second_to))]
fn continues_after(a: u8, b: u8) -> bool
    ensures { result ≡ in_range (second_from a) (second_to a) b }
{
    match a {
        0xE0 => (0xA0..=0xBF).contains(&b),
        0xED => (0x80..=0x9F).contains(&b),
        0xF0 => (0x90..=0xBF).contains(&b),
        0xF4 => (0x80..=0x8F).contains(&b),
        _ => continues(b),
    }
}

// Six more bits of a code point.
#[tactic(auto, using(crate::proofs::Bits::six))]
fn add_six(acc: u32, b: u8) -> u32
    requires { acc < 65536 }
    ensures { result ≡ more acc b }
{
    acc << 6 | (u32::from(b) & 63)
}

// The form of two bytes.
#[tactic(auto, using(crate::proofs::Bits::masks), unfolding(crate::specs::Forms::two))]
pub fn two_bytes(a: u8, b: u8) -> Option<Char>
    ensures { result ≡ two a b }
{
    if a < 0xC2 || !continues(b) {
        return None;
    }
    Some(Char {
        code: add_six(u32::from(a & 31), b),
        len: 2,
    })
}

// The form of three bytes.
#[tactic(auto, using(crate::proofs::Bits::masks), unfolding(crate::specs::Forms::three))]
pub fn three_bytes(a: u8, b: u8, c: u8) -> Option<Char>
    ensures { result ≡ three a b c }
{
    if !continues_after(a, b) || !continues(c) {
        return None;
    }
    Some(Char {
        code: add_six(add_six(u32::from(a & 15), b), c),
        len: 3,
    })
}

// The form of four bytes.
#[tactic(auto, using(crate::proofs::Bits::masks), unfolding(crate::specs::Forms::four))]
pub fn four_bytes(a: u8, b: u8, c: u8, d: u8) -> Option<Char>
    ensures { result ≡ four a b c d }
{
    if 0xF4 < a || !continues_after(a, b) || !continues(c) || !continues(d) {
        return None;
    }
    Some(Char {
        code: add_six(add_six(add_six(u32::from(a & 7), b), c), d),
        len: 4,
    })
}
