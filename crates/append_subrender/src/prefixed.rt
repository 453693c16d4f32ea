// A guest's lines behind their prefixes, the first of them behind the names that wait. What a function here requires, its callers in
// this crate show.
ghost use Rattle.std.specs.Prelude.{◌+◌, ◌≤◌, ◌<◌, length};
ghost use Rattle.fields.specs.Field.{raws};
ghost use Rattle.fields.specs.List.{left, whole_of};
ghost use Rattle.extend_lines.specs.Emitted.{InBounds, OneLineMore};
ghost use Rattle.append_subrender.specs.Prefixes.{Steps, AddsPrefixed, AddsGuest};

use crate::prefix::Prefix;
use extend_lines::line::{Lines, add_text_line, begin_line, too_long};
use fields::list::Fields;
use fields::raw::Field;
use fields::width::text_width;
use holes::draw::push_holed;
use places::border::Border;
use rows::RenderOptions;

// The lines so far, and where the names that still wait begin: at the first name, or behind the last once a line took them.
#[derive(Clone, Copy, Debug, PartialEq, Eq)]
pub struct Added {
    pub lines: Lines,
    pub from: usize,
}

// One line of the guest behind the names that wait and its prefix: the prefix joins the first piece where annotations are equal,
// behind names all pieces join, and a border, with holes or without, becomes text with the sheet's annotation.
pub fn add_prefixed(
    out: &mut [u8],
    lines: Lines,
    options: RenderOptions,
    names: &[u8],
    prefix: Prefix<'_>,
    field: Field<'_>,
) -> Lines
    requires { InBounds lines }
    ensures one_line_more { OneLineMore lines result }
    ensures adds_prefixed { AddsPrefixed out.old lines options names.now prefix.entry.text.now prefix.entry.cols (whole_of field.entry) out.new result }
{
    if 65535 < names.len() {
        return too_long(lines);
    }
    let annotation = options.annotation;
    let line = begin_line(out, lines, names);
    let head = line.push_str(out, annotation, prefix.text, prefix.cols);
    if field.letter == b'L' {
        let waits = 0 < names.len();
        let whole = head.add_pieces(out, field.content, true, waits);
        return add_text_line(out, lines, whole, options);
    }
    let drawn = push_holed(out, head, annotation, Border::of(field), 0);
    add_text_line(out, lines, drawn, options)
}

// The prefix after one: the next P field, or the same again if the last repeats.
fn next_prefix<'a>(
    prefixes: &mut Fields<'a>,
    last: Option<Prefix<'a>>,
    repeats: bool,
) -> Option<Prefix<'a>>
    ensures { Steps (left prefixes.old) repeats last.entry (left prefixes.new) result }
{
    match prefixes.next() {
        Some(Ok(field)) => Some(Prefix {
            text: field.content,
            cols: text_width(field.content),
        }),
        Some(Err(_)) => None,
        None => if repeats { last } else { None },
    }
}

// `zip`: lines and prefixes in pairs, of which the first takes the names that wait.
pub fn add_guest(
    out: &mut [u8],
    lines: Lines,
    options: RenderOptions,
    names: &[u8],
    guest: &[u8],
    prefixes: &[u8],
    repeats: bool,
) -> Added
    requires { InBounds lines × (lines.count + length (raws guest.now) < 1000000) }
    ensures in_bounds { InBounds result.lines × (result.from ≤ length names.now) }
    ensures adds_guest { AddsGuest out.old lines options names.now guest.now prefixes.now repeats out.new result }
{
    let mut next = Added { lines, from: 0 };
    let mut coming = Fields::new(prefixes);
    let mut last = None;
    for field in Fields::new(guest) {
        let Some(prefix) = next_prefix(&mut coming, last, repeats) else {
            return next;
        };
        last = Some(prefix);
        let Ok(field) = field else {
            return next;
        };
        let waiting = &names[next.from..];
        next = Added {
            lines: add_prefixed(out, next.lines, options, waiting, prefix, field),
            from: names.len(),
        };
    }
    next
}
