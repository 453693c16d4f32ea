// Walks over the fields of a sheet, of a line, of a border or of a hanging cell: one iterator for all that is read from fields.
ghost use Rattle.std.specs.Prelude.{◌≡◌, ◌+◌, ◌≤◌, ◌<◌, ℕ, List, Option, Result, MatchResult, IfOk, drop, length, take, false};
ghost use Rattle.std.specs.Iterator.{YieldsFirstBy, item_count};
ghost use Rattle.fields.specs.Field.{raws};
ghost use Rattle.fields.specs.declared.raw.Broken.{Broken};
ghost use Rattle.reader.specs.Reading.{seen, all_seen, left, next_place, end_place, Finds, Reads, items, items_size};

use fields::list::split_field;
pub use fields::raw::Broken;
use std::marker::PhantomData;

// What a field can be read as: a piece, a line, a name or a hanging cell.
pub trait FromField<'a>: Drop {
    // What an item shows of itself.
    ghost View: { Type 0 };

    ghost view: { Self → View };

    // What a field with a letter and a content is.
    ghost read: { ℕ → List ℕ → Option (Result View Broken) };

    // What a field with this letter and this content is; none where the items are over.
    fn from_field(letter: u8, content: &'a [u8]) -> Option<Result<Self, Broken>>
        ensures { all_seen view result ≡ read letter content.now };
}

// A field with its content, and the place past it.
#[derive(Clone, Copy, Drop)]
pub(crate) struct Found<'a> {
    pub(crate) letter: u8,
    pub(crate) content: &'a [u8],
    pub(crate) next: usize,
}

// The field at a place.
pub(crate) fn find<'a>(bytes: &'a [u8], at: usize) -> Option<Result<Found<'a>, Broken>>
    ensures { Finds bytes.now at result }
{
    let rest = bytes.get(at..)?;
    if rest.is_empty() {
        return None;
    }
    let Some((field, behind)) = split_field(rest) else {
        return Some(Err(Broken));
    };
    Some(Ok(Found {
        letter: field.letter,
        content: field.content,
        next: bytes.len() - behind.len(),
    }))
}

// The bytes before an end, which may be past them: that is broken. A walk over them goes no further.
pub fn before<'a>(bytes: &'a [u8], end: usize) -> Result<&'a [u8], Broken>
    ensures part { IfOk result (λ part. part.now ≡ take end bytes.now) }
    ensures inside { MatchResult result (λ part. end ≤ length bytes.now) (λ broken. length bytes.now < end) }
{
    if bytes.len() < end {
        return Err(Broken);
    }
    Ok(&bytes[..end])
}

// The item at a place, and the place where the next one stands.
#[tactic(auto, using(crate::proofs::Places::none_in, crate::proofs::Places::end_over))]
fn read_at<'a, T: FromField<'a>>(bytes: &'a [u8], at: usize) -> Option<Result<(T, usize), Broken>>
    ensures { Reads T.view T.read bytes.now at result }
{
    match find(bytes, at)? {
        Ok(found) => match T::from_field(found.letter, found.content)? {
            Ok(item) => Some(Ok((item, found.next))),
            Err(broken) => Some(Err(broken)),
        },
        Err(broken) => Some(Err(broken)),
    }
}

// The fields of a byte list from a place on, each read as a `T`. Behind what is broken it gives nothing more, and stays at its place.
#[derive(Clone, Copy, Debug, Drop)]
pub struct Walk<'a, T> {
    bytes: &'a [u8],
    at: usize,
    is_over: bool,
    kind: PhantomData<T>,
}

impl<'a, T: FromField<'a>> Walk<'a, T> {
    // A walk over all fields from a place on.
    pub fn new(bytes: &'a [u8], at: usize) -> Self
        ensures gives { left T.read result ≡ items T.read (raws (drop at bytes.now)) }
        ensures bytes { result.bytes ≡ bytes.entry }
        ensures place { result.at ≡ at }
        ensures fresh { result.is_over ≡ false }
    {
        Walk {
            bytes,
            at,
            is_over: false,
            kind: PhantomData,
        }
    }

    // The place where the next item stands.
    pub fn place(&self) -> usize
        ensures { result ≡ self.now.at }
    {
        self.at
    }

    // The bytes from that place on.
    pub fn rest(&self) -> &'a [u8]
        ensures { result.now ≡ drop self.now.at self.now.bytes.now }
    {
        self.bytes.get(self.at..).unwrap_or(&[])
    }

    // The next item, which is what the iterator gives; the walk goes on behind it, and stays at what is broken.
    pub fn step(&mut self) -> Option<Result<T, Broken>>
        ensures gives { YieldsFirstBy (seen T.view) (left T.read) self.old result self.new }
        ensures bytes { self.new.bytes ≡ self.old.bytes }
        ensures place { self.new.at ≡ next_place T.read self.old }
    {
        if self.is_over {
            return None;
        }
        match read_at(self.bytes, self.at)? {
            Ok((item, next)) => {
                self.at = next;
                Some(Ok(item))
            }
            Err(broken) => {
                self.is_over = true;
                Some(Err(broken))
            }
        }
    }

    // The place behind all items that are left.
    #[tactic(auto, using(crate::proofs::Places::no_size, crate::proofs::Places::size_on))]
    pub fn end(&self) -> usize
        ensures { result ≡ end_place T.read self.now }
    {
        let mut place = self.at;
        if self.is_over {
            return place;
        }
        while let Some(Ok((_, next))) = read_at::<T>(self.bytes, place) {
            place = next;
        }
        place
    }
}

impl<'a, T: FromField<'a>> Iterator for Walk<'a, T> {
    type Item = Result<T, Broken>;

    ghost next_gives = { YieldsFirstBy (seen T.view) (left T.read) };

    ghost remaining = { item_count (left T.read) };

    fn next(&mut self) -> Option<Result<T, Broken>> {
        self.step()
    }
}
