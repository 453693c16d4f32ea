// The columns of a text (`UnicodeWidthStr::width`).
ghost use Rattle.std.specs.Prelude.{◌≡◌, ◌*◌, ◌^◌, ◌≤◌, ◌<◌, length};
ghost use Rattle.fields.specs.Widths.{text_width};

use characters::columns::char_width;
use characters::plain::{ascii_run, plain_run};
use characters::utf8::decode;

// The columns of a text, run by run of plain characters and one character after each; 0 for bytes that are no text.
fn walked_width(text: &[u8]) -> usize
    requires { length text.now < 2 ^ 40 }
    ensures upper_bound { result ≤ 2 * length text.now }
    ensures value { result ≡ text_width text.now }
{
    let mut at = 0;
    let mut cols = 0;
    // A turn passes a run and a character, of any number of bytes: no iterator of the library goes so.
    loop {
        let run = plain_run(&text[at..], true);
        cols += run.cols;
        at += run.len;
        if at >= text.len() {
            return cols;
        }
        let Some(first) = decode(&text[at..]) else {
            return 0;
        };
        cols += char_width(first.code);
        at += first.len;
    }
}

// The columns of a text; 0 for bytes that are no text. A text of printable ASCII has as many as bytes.
pub fn text_width(text: &[u8]) -> usize
    requires { length text.now < 2 ^ 40 }
    ensures upper_bound { result ≤ 2 * length text.now }
    ensures value { result ≡ text_width text.now }
{
    let n = ascii_run(text);
    if n == text.len() {
        return n;
    }
    walked_width(text)
}
