// A line or the word of a block (`TaggedLine`): entries in two lent buffers, in the one the byte and in the other its tag. Pushing is a
// store behind the entries.
ghost use Rattle.std.specs.Prelude.{◌≡◌, true, [], ◌∷◌, ◌++◌, ◌+◌, ◌≤◌, ◌<◌, ◌↔◌, IsTrue, length, map, min, replicate, take};
ghost use Rattle.lines.specs.Items.{item, byte_of, tag_of};
ghost use Rattle.lines.specs.Bridge.{tagged};

use fields::store::copy_slice;
use std::marker::Model;

// The buffers, and how many entries they hold.
#[derive(Drop)]
pub struct TaggedLine<'a> {
    bytes: &'a mut [u8],
    tags: &'a mut [u32],
    len: usize,
}

impl<'a> Model for TaggedLine<'a> {
    ghost use Rattle.std.specs.Prelude.{◌≤◌, length, min};
    ghost use Rattle.lines.specs.Items.{items, Entries};

    ghost Value = { Entries };

    ghost view = { λ l. record { items = items l.bytes.now l.tags.now l.len; room = min (length l.bytes.now) (length l.tags.now) } };

    ghost invariant = { λ l. (l.len ≤ length l.bytes.now) × (l.len ≤ length l.tags.now) };
}

impl<'a> TaggedLine<'a> {
    // No entries yet.
    #[tactic(auto, using(crate::proofs::Buffers::items_none))]
    pub fn new(bytes: &'a mut [u8], tags: &'a mut [u32]) -> TaggedLine<'a>
        ensures items { result.items ≡ [] }
        ensures room { result.room ≡ min (length bytes.old) (length tags.old) }
    {
        TaggedLine {
            bytes,
            tags,
            len: 0,
        }
    }

    // The number of entries.
    #[tactic(auto, using(crate::proofs::Buffers::items_length))]
    pub fn len(&self) -> usize
        ensures { result ≡ length self.now.items }
    {
        self.len
    }

    // Whether there are no entries.
    #[tactic(auto, using(crate::proofs::Buffers::items_length))]
    pub fn is_empty(&self) -> bool
        ensures { IsTrue result ↔ length self.now.items ≡ 0 }
    {
        self.len == 0
    }

    // The bytes of the entries.
    #[tactic(auto, using(crate::proofs::Buffers::items_bytes))]
    pub fn bytes(&self) -> &[u8]
        ensures { result.now ≡ map byte_of self.now.items }
    {
        &self.bytes[..self.len]
    }

    // The tags of the entries.
    #[tactic(auto, using(crate::proofs::Buffers::items_tags))]
    pub fn tags(&self) -> &[u32]
        ensures { result.now ≡ map tag_of self.now.items }
    {
        &self.tags[..self.len]
    }

    // One byte more.
    #[tactic(auto, using(crate::proofs::Buffers::items_length, crate::proofs::Buffers::items_push, crate::proofs::Buffers::push_length))]
    pub fn push(&mut self, b: u8, tag: u32)
        requires { length self.old.items < self.old.room }
        ensures items { self.new.items ≡ self.old.items ++ (item b tag ∷ []) }
        ensures len { length self.new.items ≡ length self.old.items + 1 }
        ensures room { self.new.room ≡ self.old.room }
    {
        self.bytes[self.len] = b;
        self.tags[self.len] = tag;
        self.len += 1;
    }

    // So many spaces of one tag (`push_ws`).
    #[tactic(auto, using(crate::proofs::Buffers::items_length))]
    pub fn push_ws(&mut self, count: usize, tag: u32)
        requires { length self.old.items + count ≤ self.old.room }
        ensures items { self.new.items ≡ self.old.items ++ replicate count (item 32 tag) }
        ensures len { length self.new.items ≡ length self.old.items + count }
        ensures room { self.new.room ≡ self.old.room }
    {
        let end = self.len + count;
        self.bytes[self.len..end].fill(32);
        self.tags[self.len..end].fill(tag);
        self.len = end;
    }

    // The bytes of a text, each with one tag (`push`, `push_char`).
    #[tactic(auto, using(crate::proofs::Buffers::items_length))]
    pub fn push_str(&mut self, text: &[u8], tag: u32)
        requires { length self.old.items + length text.now ≤ self.old.room }
        ensures items { self.new.items ≡ self.old.items ++ tagged tag text.now }
        ensures len { length self.new.items ≡ length self.old.items + length text.now }
        ensures room { self.new.room ≡ self.old.room }
    {
        let end = self.len + text.len();
        copy_slice(&mut self.bytes[self.len..end], text);
        self.tags[self.len..end].fill(tag);
        self.len = end;
    }

    // The entries of another line (`consume`).
    #[tactic(auto, using(crate::proofs::Buffers::items_length))]
    pub fn consume(&mut self, more: &TaggedLine<'_>)
        requires { length self.old.items + length more.now.items ≤ self.old.room }
        ensures items { self.new.items ≡ self.old.items ++ more.now.items }
        ensures len { length self.new.items ≡ length self.old.items + length more.now.items }
        ensures room { self.new.room ≡ self.old.room }
    {
        let end = self.len + more.len();
        copy_slice(&mut self.bytes[self.len..end], more.bytes());
        copy_slice(&mut self.tags[self.len..end], more.tags());
        self.len = end;
    }

    // No entries are left.
    #[tactic(auto, using(crate::proofs::Buffers::items_none))]
    pub fn clear(&mut self)
        ensures items { self.new.items ≡ [] }
        ensures room { self.new.room ≡ self.old.room }
    {
        self.len = 0;
    }

    // The first n entries are left.
    #[tactic(auto, using(crate::proofs::Buffers::items_length, crate::proofs::Buffers::items_take))]
    pub fn truncate(&mut self, n: usize)
        requires { n ≤ length self.old.items }
        ensures items { self.new.items ≡ take n self.old.items }
        ensures len { length self.new.items ≡ n }
        ensures room { self.new.room ≡ self.old.room }
    {
        self.len = n;
    }
}
