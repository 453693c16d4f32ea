// The lines of a cell as it is laid.
ghost use Rattle.bodies.specs.Body.{BodyIn, FindsBody};

use crate::walk::{Walked, walk_lines, without_top};
use places::border::Border;

// The bytes of a cell's lines, the last border that was taken off behind them, how many lines there are, and whether one of them, or that
// border, has holes.
#[derive(Clone, Copy)]
pub struct Body<'a> {
    pub lines: &'a [u8],
    pub bottom: Option<Border<'a>>,
    pub count: usize,
    pub holed: bool,
}

impl<'a> Body<'a> {
    ghost use Rattle.bodies.specs.Body.{AllLines};

    // All lines that were walked.
    fn all(lines: &'a [u8], walked: Walked<'a>) -> Body<'a>
        ensures { AllLines lines.entry.now walked.entry result }
    {
        Body {
            lines,
            bottom: None,
            count: walked.count,
            holed: walked.holed,
        }
    }
}

// A cell's lines: with collapsing without a first border, and then without a last one.
pub fn body_of(lines: &[u8], collapse: bool) -> Body<'_>
    ensures body_in { BodyIn lines.now result }
    ensures finds_body { FindsBody lines.now collapse result }
{
    if !collapse {
        return Body::all(lines, walk_lines(lines));
    }
    let lines = without_top(lines);
    let walked = walk_lines(lines);
    match walked.last {
        Some(last) if last.letter != b'L' => {
            let border = Border::of(last);
            Body {
                lines: walked.before,
                bottom: Some(border),
                count: walked.count - 1,
                holed: walked.holed,
            }
        }
        _ => Body::all(lines, walked),
    }
}
