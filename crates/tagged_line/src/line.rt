// The line and what is pushed onto it: text, spaces, a border's drawing.
ghost use Rattle.std.specs.Prelude.{◌≡◌, [], ◌∷◌, ◌+◌, ◌-◌, ◌*◌, ◌^◌, ◌≤◌, ◌<◌, length};
ghost use Rattle.tagged_line.specs.Held.{Within, LineGrown, MakesRoom, Pushes, PushesSpaces, Draws, Pads, new_line};

use borders::draw::{Drawing, drawn_len, put_drawn, put_stretch, stretch_len};
use fields::store::{put_byte, put_bytes, put_head, put_repeat, put_two};

// Where the writing of a line stands: where its content begins and where it ends so far; the place of the S field that
// is open at its end, four bytes back or more, and its annotation; and the columns so far. A push answers where the writing stands then.
#[derive(Clone, Copy, Debug, PartialEq, Eq)]
pub struct Line {
    pub base: usize,
    pub at: usize,
    pub piece: usize,
    pub annotation: u8,
    pub cols: usize,
}

impl Line {
    // `TaggedLine::new`: an empty line whose field begins at a place, three bytes before its content.
    pub fn new(place: usize) -> Line
        requires { place + 3 < 2 ^ 62 }
        ensures { result ≡ new_line place }
    {
        let base = place + 3;
        Line {
            base,
            at: base,
            piece: base,
            annotation: 0,
            cols: 0,
        }
    }

    // Room for n bytes of text that take so many columns: in the piece that is open, where the annotations are equal, or in a new one.
    // The text is to be put in before the end of the line that is answered.
    fn open_text(self, out: &mut [u8], annotation: u8, n: usize, cols: usize) -> Line
        requires { Within self (4 + n + cols) }
        ensures line_grown { LineGrown self result (4 + n + cols) × (self.at + n ≤ result.at) }
        ensures makes_room { MakesRoom out.old self annotation n cols out.new result }
    {
        let wider = Line {
            cols: self.cols + cols,
            ..self
        };
        if n == 0 {
            return wider;
        }
        if self.piece + 4 <= self.at && self.annotation == annotation {
            let end = self.at + n;
            put_two(out, self.piece + 1, (end - self.piece - 3) % 65536);
            return Line { at: end, ..wider };
        }
        let first = put_head(out, self.at, b'S', (n + 1) % 65536);
        let start = put_byte(out, first, annotation);
        Line {
            at: start + n,
            piece: self.at,
            annotation,
            ..wider
        }
    }

    // `push_str`, of a text whose columns are known.
    pub fn push_str(self, out: &mut [u8], annotation: u8, text: &[u8], cols: usize) -> Line
        requires { Within self (4 + length text.now + cols) }
        ensures line_grown { LineGrown self result (4 + length text.now + cols) }
        ensures pushes { Pushes out.old self annotation text.now cols out.new result }
    {
        let n = text.len();
        let next = self.open_text(out, annotation, n, cols);
        put_bytes(out, next.at - n, text);
        next
    }

    // `push_str` of │, which has one column.
    pub fn push_bar(self, out: &mut [u8], annotation: u8) -> Line
        requires { Within self 8 }
        ensures line_grown { LineGrown self result 8 }
        ensures pushes { Pushes out.old self annotation (0xE2 ∷ 0x94 ∷ 0x82 ∷ []) 1 out.new result }
    {
        let next = self.open_text(out, annotation, 3, 1);
        let second = put_byte(out, next.at - 3, 0xE2);
        put_two(out, second, 0x9482);
        next
    }

    // `push_ws`: n spaces.
    pub fn push_ws(self, out: &mut [u8], n: usize, annotation: u8) -> Line
        requires { Within self (4 + n + n) }
        ensures line_grown { LineGrown self result (4 + n + n) }
        ensures pushes_spaces { PushesSpaces out.old self n annotation out.new result }
    {
        let next = self.open_text(out, annotation, n, n);
        put_repeat(out, next.at - n, b' ', n);
        next
    }

    // `pad_to`: spaces up to a width.
    pub fn pad_to(self, out: &mut [u8], width: usize, annotation: u8) -> Line
        requires { Within self (4 + width + width) }
        ensures line_grown { LineGrown self result (4 + width + width) }
        ensures pads { Pads out.old self width annotation out.new result }
    {
        if self.cols < width {
            self.push_ws(out, width - self.cols, annotation)
        } else {
            self
        }
    }

    // What is drawn of a border, stretched to a width.
    pub fn push_drawn(
        self,
        out: &mut [u8],
        annotation: u8,
        segs: &[u8],
        width: usize,
        drawing: Drawing,
    ) -> Line
        requires short { (length segs.now < 2 ^ 20) × (width < 2 ^ 20) }
        requires within { Within self (7 + 4 * length segs.now + 4 * width) }
        ensures line_grown { LineGrown self result (4 + 4 * length segs.now + 4 * width) }
        ensures draws { Draws out.old self annotation segs.now width drawing out.new result }
    {
        let k = segs.len();
        let more = width.saturating_sub(k);
        let n = drawn_len(segs, drawing);
        let tail = stretch_len(more, drawing);
        let next = self.open_text(out, annotation, n + tail, k + more);
        let at = put_drawn(out, next.at - tail - n, segs, drawing, n);
        put_stretch(out, at, more, drawing);
        next
    }
}
