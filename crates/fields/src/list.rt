// The fields of a list, one after the other: an iterator whose items are what the definition `raws` reads.
ghost use Rattle.std.specs.Prelude.{◌≡◌, ◌+◌, length, drop, IfSome};
ghost use Rattle.fields.specs.Field.{raws};
ghost use Rattle.std.specs.Iterator.{YieldsFirstBy, item_count};
ghost use Rattle.fields.specs.List.{raw, left, SplitsOff};

use crate::raw::{Broken, Field};

// The field that bytes start with and what follows it, if a whole one stands there.
pub fn split_field<'a>(bytes: &'a [u8]) -> Option<(Field<'a>, &'a [u8])>
    ensures size { IfSome result (λ p. length bytes.now ≡ 3 + length p.0.content.now + length p.1.now) }
    ensures behind { IfSome result (λ p. p.1.now ≡ drop (3 + length p.0.content.now) bytes.now) }
    ensures splits_off { SplitsOff bytes.now result }
{
    let (head, rest) = bytes.split_first_chunk::<3>()?;
    let [letter, high, low] = *head;
    let length = usize::from(high) * 256 + usize::from(low);
    let (content, rest) = rest.split_at_checked(length)?;
    Some((Field { letter, content }, rest))
}

// The fields that are left.
#[derive(Clone, Copy)]
pub struct Fields<'a> {
    rest: &'a [u8],
}

impl<'a> Fields<'a> {
    // The fields of a list of bytes.
    pub fn new(bytes: &'a [u8]) -> Fields<'a>
        ensures { result.rest.now ≡ bytes.now }
    {
        Fields { rest: bytes }
    }
}

impl<'a> Iterator for Fields<'a> {
    type Item = Result<Field<'a>, Broken>;

    ghost next_gives = { YieldsFirstBy raw left };

    ghost remaining = { item_count left };

    #[inline(always)]
    fn next(&mut self) -> Option<Result<Field<'a>, Broken>> {
        if self.rest.is_empty() {
            return None;
        }
        match split_field(self.rest) {
            Some((field, rest)) => {
                self.rest = rest;
                Some(Ok(field))
            }
            None => {
                self.rest = &[];
                Some(Err(Broken))
            }
        }
    }
}

// The number of fields, a rest that is no field counted as one.
pub fn count_fields(bytes: &[u8]) -> usize
    ensures { result ≡ length (raws bytes.now) }
{
    Fields::new(bytes).count()
}
