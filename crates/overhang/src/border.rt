// A border's field.
ghost use Rattle.std.specs.Prelude.{◌+◌, ◌^◌, ◌≤◌, ◌<◌, length};
ghost use Rattle.fields.specs.Store.{Wrote};
ghost use Rattle.overhang.specs.Border.{front_bytes, PutsBorder};

use borders::segment::HORIZ;
use fields::store::{put_byte, put_bytes, put_head, put_repeat, put_two};

// What stands before the segments of a border, whose holes take so many bytes: the head of a B field and the annotation, or if there are
// holes that of a G field, the annotation and the count of the segments.
#[tactic(auto, using(crate::proofs::BorderLaws::front_plain, crate::proofs::BorderLaws::front_holed))]
fn put_front(out: &mut [u8], at: usize, annotation: u8, count: usize, holes: usize) -> usize
    requires { (at < 2 ^ 61) × (count < 2 ^ 20) × (holes < 65536) }
    ensures lower_bound { (at + 4 ≤ result) × (result ≤ at + 6) }
    ensures wrote { Wrote out.old at (front_bytes annotation count holes) out.new result }
{
    if holes == 0 {
        let start = put_head(out, at, b'B', (1 + count) % 65536);
        return put_byte(out, start, annotation);
    }
    let start = put_head(out, at, b'G', (3 + count + holes) % 65536);
    let number = put_byte(out, start, annotation);
    put_two(out, number, count % 65536)
}

// A border with so many segments of Horiz behind its own, and with its holes as they stand.
pub fn put_border(
    out: &mut [u8],
    at: usize,
    annotation: u8,
    segments: &[u8],
    more: usize,
    holes: &[u8],
) -> usize
    requires { (at < 2 ^ 61) × (length segments.now ≤ 65536) × (more < 65536) × (length holes.now < 65536) }
    ensures border_in { (at + 4 ≤ result) × (result ≤ at + 6 + length segments.now + more + length holes.now) }
    ensures puts_border { PutsBorder out.old at annotation segments.now more holes.now out.new result }
{
    let start = put_front(out, at, annotation, segments.len() + more, holes.len());
    let middle = put_bytes(out, start, segments);
    let end = put_repeat(out, middle, HORIZ, more);
    put_bytes(out, end, holes)
}
