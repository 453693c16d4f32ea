// A border as its field holds it.
ghost use Rattle.std.specs.Prelude.{◌+◌, ◌<◌, length};

use fields::raw::Field;

// The annotation of a B or G field's content, however long that is, its segments, and the bytes of its holes.
#[derive(Clone, Copy)]
pub struct Parts<'a> {
    pub annotation: u8,
    pub segments: &'a [u8],
    pub holes: &'a [u8],
}

impl<'a> Parts<'a> {
    ghost use Rattle.places.specs.Border.{no_parts, PartsIn, FindsParts};

    // Nothing, where a content is too short. That is no None: the callers' contents passed the checks, and draw nothing then.
    fn none() -> Parts<'a>
        ensures { no_parts result }
    {
        Parts {
            annotation: 0,
            segments: &[],
            holes: &[],
        }
    }

    // The parts of a G field's content: an annotation, a count of two bytes, the segments, the holes.
    fn holed(content: &'a [u8]) -> Parts<'a>
        ensures parts_in { PartsIn content.now result }
        ensures finds_parts { FindsParts 0x47 content.now result }
    {
        let [annotation, high, low, behind @ ..] = content else {
            return Self::none();
        };
        let count = usize::from(u16::from_be_bytes([*high, *low]));
        let Some((segments, holes)) = behind.split_at_checked(count) else {
            return Self::none();
        };
        Parts {
            annotation: *annotation,
            segments,
            holes,
        }
    }

    // The parts of a B or G field's content: all behind the annotation of a B are its segments.
    pub fn of(letter: u8, content: &'a [u8]) -> Parts<'a>
        ensures parts_in { PartsIn content.now result }
        ensures finds_parts { FindsParts letter content.now result }
    {
        if letter == b'G' {
            return Self::holed(content);
        }
        let [annotation, behind @ ..] = content else {
            return Self::none();
        };
        Parts {
            annotation: *annotation,
            segments: behind,
            holes: &[],
        }
    }
}

// The parts of a whole field, which is short.
#[derive(Clone, Copy)]
pub struct Border<'a> {
    pub annotation: u8,
    pub segments: &'a [u8],
    pub holes: &'a [u8],
    pub ghost short: { length segments.now + length holes.now < 65536 },
}

impl<'a> Border<'a> {
    ghost use Rattle.std.specs.Prelude.{◌≤◌, length};
    ghost use Rattle.places.specs.Border.{size, ReadsBorder};

    // The border that a B or G field is.
    pub fn of(field: Field<'a>) -> Border<'a>
        ensures within { size result ≤ length field.entry.content.now }
        ensures reads_border { ReadsBorder field.entry.letter field.entry.content.now result }
    {
        let parts = Parts::of(field.letter, field.content);
        Border {
            annotation: parts.annotation,
            segments: parts.segments,
            holes: parts.holes,
        }
    }
}
