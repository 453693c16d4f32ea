// Walks over lines that stand in bytes, one after the other.
ghost use Rattle.std.specs.Prelude.{◌≡◌, ◌-◌, ◌≤◌, length, drop};
ghost use Rattle.bodies.specs.Walk.{PassesTop, PassesOnlyTop, TellsTop, WalkedIn, Walks, Skips};

use fields::list::split_field;
use fields::raw::Field;

// The last of some lines, if there is one, the bytes of those before it, how many lines there are, and whether one of them is a border with
// holes.
#[derive(Clone, Copy)]
pub struct Walked<'a> {
    pub last: Option<Field<'a>>,
    pub before: &'a [u8],
    pub count: usize,
    pub holed: bool,
}

// The lines behind a first border, or all of them where no border stands first.
pub fn without_top(lines: &[u8]) -> &[u8]
    ensures shorter { length result.now ≤ length lines.now }
    ensures behind { result.now ≡ drop (length lines.now - length result.now) lines.now }
    ensures passes_top { PassesTop lines.now result.now }
    ensures passes_only_top { PassesOnlyTop lines.now result.now }
{
    match split_field(lines) {
        Some((first, rest)) if first.letter != b'L' => rest,
        _ => lines,
    }
}

// Whether a border stands first.
pub fn starts_border(lines: &[u8]) -> bool
    ensures { TellsTop lines.now result }
{
    lines.first().is_some_and(|letter| *letter != b'L')
}

// All lines, and what the last of them is; bytes that are no line in the end leave no last one.
pub fn walk_lines(lines: &[u8]) -> Walked<'_>
    ensures walked_in { WalkedIn lines.now result }
    ensures walks { Walks lines.now result }
{
    let mut walked = Walked {
        last: None,
        before: lines,
        count: 0,
        holed: false,
    };
    let mut rest = lines;
    // No `for` over `Fields`: the bytes before the last line are asked for too.
    while let Some((line, next)) = split_field(rest) {
        walked = Walked {
            last: Some(line),
            before: &lines[..lines.len() - rest.len()],
            count: walked.count + 1,
            holed: walked.holed || line.letter == b'G',
        };
        rest = next;
    }
    if rest.is_empty() {
        return walked;
    }
    Walked {
        last: None,
        before: lines,
        ..walked
    }
}

// The lines behind the first n, or none.
pub fn skip_lines(lines: &[u8], n: usize) -> &[u8]
    ensures shorter { length result.now ≤ length lines.now }
    ensures behind { result.now ≡ drop (length lines.now - length result.now) lines.now }
    ensures skips { Skips lines.now n result.now }
{
    let mut rest = lines;
    for _ in 0..n {
        let Some((_, next)) = split_field(rest) else {
            return rest;
        };
        rest = next;
    }
    rest
}
