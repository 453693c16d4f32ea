// A border of some segments over a lent buffer that has the first ones of them (`Keeps`).
ghost use Rattle.std.specs.Prelude.{◌≡◌, ◌+◌, ◌^◌, ◌≤◌, ◌<◌, max, length, take, MatchOption};
ghost use Rattle.borders.specs.BorderHoriz.{new_type};
ghost use Rattle.borders.specs.Buffer.{HoldsBorder};
ghost use Rattle.long_borders.specs.Keeps.{Fills, Copies, Stretches, ChangesBy, ChopsBefore, JoinsOn, MergesFrom, Cuts};

use borders::border::Side;
use borders::segment::{BorderSegHoriz, HORIZ};
use fields::store::copy_slice;

// A lent buffer, and how many segments the border has.
#[derive(Drop)]
pub struct BorderHoriz<'a> {
    pub buffer: &'a mut [u8],
    pub len: usize,
}

impl<'a> BorderHoriz<'a> {
    // `new_type`: segments of one kind up to a width.
    pub fn new(buffer: &'a mut [u8], width: usize, segment: u8) -> Self
        ensures same_buffer { result.buffer.ghost_name ≡ buffer.entry.ghost_name }
        ensures room { length result.buffer.now ≡ length buffer.old }
        ensures len { result.len ≡ width }
        ensures holds { width ≤ length buffer.old → HoldsBorder result.buffer.now result.len (new_type width segment) }
        ensures fills { Fills width segment result }
    {
        let end = width.min(buffer.len());
        buffer[..end].fill(segment);
        BorderHoriz { buffer, len: width }
    }

    // The border of segments that stand in bytes.
    pub fn from_segments(buffer: &'a mut [u8], segments: &[u8]) -> Self
        ensures same_buffer { result.buffer.ghost_name ≡ buffer.entry.ghost_name }
        ensures room { length result.buffer.now ≡ length buffer.old }
        ensures len { result.len ≡ length segments.now }
        ensures copies { Copies segments.now result }
    {
        let end = segments.len().min(buffer.len());
        copy_slice(&mut buffer[..end], &segments[..end]);
        BorderHoriz {
            buffer,
            len: segments.len(),
        }
    }

    // Its segments, if the buffer has all of them.
    pub fn segments(&self) -> Option<&[u8]>
        ensures { MatchOption result (length self.now.buffer.now < self.now.len) (λ s. (self.now.len ≤ length self.now.buffer.now) × (s.now ≡ take self.now.len self.now.buffer.now)) }
    {
        self.buffer.get(..self.len)
    }

    // `stretch_to`: Horiz up to a width, if the border is not as wide.
    pub fn stretch_to(&mut self, width: usize)
        ensures same_buffer { self.new.buffer.ghost_name ≡ self.old.buffer.ghost_name }
        ensures room { length self.new.buffer.now ≡ length self.old.buffer.now }
        ensures len { self.new.len ≡ max self.old.len width }
        ensures stretches { Stretches self.old width self.new }
    {
        let end = width.min(self.buffer.len());
        if self.len < end {
            self.buffer[self.len..end].fill(HORIZ);
        }
        self.len = self.len.max(width);
    }

    // The segment at a place changed, if the buffer has it; a byte that is no segment stays.
    fn change_at<F: FnOnce(BorderSegHoriz) -> BorderSegHoriz>(&mut self, x: usize, change: F)
        requires { F.IsAlwaysCallable change }
        ensures same_buffer { self.new.buffer.ghost_name ≡ self.old.buffer.ghost_name }
        ensures room { length self.new.buffer.now ≡ length self.old.buffer.now }
        ensures len { self.new.len ≡ self.old.len }
        ensures changes_by { ChangesBy (F.post change) self.old x self.new }
    {
        if x < self.buffer.len() {
            if let Ok(segment) = BorderSegHoriz::try_from(self.buffer[x]) {
                self.buffer[x] = u8::from(change(segment));
            }
        }
    }

    // `chop_right` of the segment before a place, if there is one.
    fn chop_before(&mut self, pos: usize)
        ensures same_buffer { self.new.buffer.ghost_name ≡ self.old.buffer.ghost_name }
        ensures room { length self.new.buffer.now ≡ length self.old.buffer.now }
        ensures len { self.new.len ≡ self.old.len }
        ensures chops_before { ChopsBefore self.old pos self.new }
    {
        if 0 < pos {
            self.change_at(pos - 1, |segment| segment.chop_right());
        }
    }

    // What `add_text_span` does to the segments beside and under a hole from pos up to rpos.
    pub fn cut_for(&mut self, pos: usize, rpos: usize)
        ensures same_buffer { self.new.buffer.ghost_name ≡ self.old.buffer.ghost_name }
        ensures room { length self.new.buffer.now ≡ length self.old.buffer.now }
        ensures len { self.new.len ≡ max self.old.len rpos }
        ensures cuts { Cuts self.old pos rpos self.new }
    {
        self.stretch_to(rpos);
        self.chop_before(pos);
        self.change_at(rpos, |segment| segment.chop_left());
    }

    // `join_above`, `join_below`: a join at a place, which is first reached with Horiz.
    pub fn join_on(&mut self, x: usize, side: Side)
        requires { x + 1 < 2 ^ 64 }
        ensures same_buffer { self.new.buffer.ghost_name ≡ self.old.buffer.ghost_name }
        ensures room { length self.new.buffer.now ≡ length self.old.buffer.now }
        ensures len { self.new.len ≡ max self.old.len (x + 1) }
        ensures joins_on { JoinsOn side self.old x self.new }
    {
        self.stretch_to(x + 1);
        self.change_at(x, |segment| side.joined(segment));
    }

    // `merge_from_above`, `merge_from_below`: another border's segments, laid from pos on.
    pub fn merge_from(&mut self, other: &[u8], pos: usize, side: Side)
        requires { pos + length other.now < 2 ^ 64 }
        ensures same_buffer { self.new.buffer.ghost_name ≡ self.old.buffer.ghost_name }
        ensures room { length self.new.buffer.now ≡ length self.old.buffer.now }
        ensures len { (self.old.len ≤ self.new.len) × (self.new.len ≤ max self.old.len (pos + length other.now)) }
        ensures merges_from { MergesFrom side self.old other.now pos self.new }
    {
        for (i, byte) in other.iter().enumerate() {
            if side.joins(*byte) {
                self.join_on(pos + i, side);
            }
        }
    }
}
