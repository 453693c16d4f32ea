// A line of the sheet from its entries: the L field with an S field for each run of one tag and an F field
// for each name, written into the store; or those fields alone, as names stand that wait behind the lines.
// The Rust keeps those runs as it goes (`push` of `TaggedLine` joins equal tags); here they are found when
// the line is closed.
ghost use Rattle.std.specs.Prelude.{◌≡◌, ◌+◌, ◌*◌, ◌^◌, ◌≤◌, ◌<◌, length, drop, get_or};
ghost use Rattle.fields.specs.Store.{Wrote};
ghost use Rattle.lines.specs.Items.{zip};
ghost use Rattle.lines.specs.Encode.{same_t, run_t, field_of, content, line_field};

use fields::store::{put_byte, put_bytes, put_field, put_head};

// The tag of a name's start.
pub const MARK: u32 = 1048576;

// The tag of a name's bytes.
pub const NAME: u32 = 1114112;

// The end of the entries of the tag t from i on.
fn same_end(tags: &[u32], i: usize, t: u32) -> usize
    requires { i ≤ length tags.now }
    ensures lower_bound { (i ≤ result) × (result ≤ length tags.now) }
    ensures value { result ≡ i + same_t t (drop i tags.now) }
{
    match tags[i..].iter().position(|tag| *tag != t) {
        Some(k) => i + k,
        None => tags.len(),
    }
}

// The end of the piece that starts at i: a mark goes on in a name's bytes, a text in entries of its tag and then in a name's bytes.
pub fn run_end(tags: &[u32], i: usize) -> usize
    requires { i < length tags.now }
    ensures lower_bound { (i < result) × (result ≤ length tags.now) }
    ensures value { result ≡ i + 1 + run_t (get_or tags.now i 0) (drop (i + 1) tags.now) }
{
    let t = tags[i];
    if t == MARK {
        return same_end(tags, i + 1, NAME);
    }
    let text = same_end(tags, i + 1, t);
    same_end(tags, text, NAME)
}

// One piece from its bytes, a name's mark among them, and its first entry's tag.
fn put_piece(out: &mut [u8], at: usize, part: &[u8], tag: u32) -> usize
    requires { (0 < length part.now) × (length part.now < 65535) × (at + length part.now + 4 < 2 ^ 62) }
    ensures upper_bound { result ≤ at + length part.now + 4 }
    ensures wrote { Wrote out.old at (field_of tag part.now) out.new result }
{
    if tag == MARK {
        return put_field(out, at, b'F', &part[1..]);
    }
    let annotation = put_head(out, at, b'S', part.len() + 1);
    let text = put_byte(out, annotation, (tag % 256) as u8);
    put_bytes(out, text, part)
}

// The pieces of a line, or of a word, one after the other; where there is no text these are the F fields of its names.
pub fn put_pieces(out: &mut [u8], at: usize, bytes: &[u8], tags: &[u32]) -> usize
    requires { (length bytes.now ≡ length tags.now) × (length bytes.now < 65535) × (at + 5 * length bytes.now < 2 ^ 62) }
    ensures upper_bound { result ≤ at + 5 * length bytes.now }
    ensures wrote { Wrote out.old at (content (zip bytes.now tags.now)) out.new result }
{
    let mut i = 0;
    let mut k = at;
    // A turn takes a piece of any number of entries: no iterator of the library goes so.
    while i < tags.len() {
        let j = run_end(tags, i);
        k = put_piece(out, k, &bytes[i..j], tags[i]);
        i = j;
    }
    k
}

// A whole line: first what it holds, and then its head in front of it.
pub fn put_line(out: &mut [u8], at: usize, bytes: &[u8], tags: &[u32]) -> usize
    requires { (length bytes.now ≡ length tags.now) × (length bytes.now < 13107) × (at + 5 * length bytes.now + 3 < 2 ^ 62) }
    ensures lower_bound { (at + 3 ≤ result) × (result ≤ at + 3 + 5 * length bytes.now) }
    ensures wrote { Wrote out.old at (line_field (zip bytes.now tags.now)) out.new result }
{
    let start = at + 3;
    let end = put_pieces(out, start, bytes, tags);
    put_head(out, at, b'L', end - start);
    end
}
