// Cells below each other: the first line of a cell takes the names that wait, and a border between cells does not. What a function here
// requires, its callers in this crate show.
ghost use Rattle.std.specs.Prelude.{◌+◌, ◌≤◌, ◌<◌, length};
ghost use Rattle.fields.specs.Field.{raws};
ghost use Rattle.fields.specs.List.{whole_of};
ghost use Rattle.extend_lines.specs.Emitted.{InBounds, OneLineMore};
ghost use Rattle.append_subrender.specs.Prefixes.{AddsRule, AddsRuleIf, AddsCell, StacksCell, AddsCells};

use crate::prefix::Prefix;
use crate::prefixed::{Added, add_prefixed};
use extend_lines::line::{Lines, add_border};
use fields::list::Fields;
use fields::raw::Field;
use rows::RenderOptions;

// A border of one segment, as wide as the sheet.
fn add_rule(out: &mut [u8], lines: Lines, options: RenderOptions, segment: u8) -> Lines
    requires { InBounds lines }
    ensures one_line_more { OneLineMore lines result }
    ensures adds_rule { AddsRule out.old lines options segment out.new result }
{
    let rule = [segment; 256];
    let segments = &rule[..usize::from(options.width)];
    add_border(out, lines, options, options.annotation, segments)
}

// The same, if it is to be drawn.
pub fn add_rule_if(
    out: &mut [u8],
    lines: Lines,
    options: RenderOptions,
    segment: u8,
    drawn: bool,
) -> Lines
    requires { InBounds lines × (lines.count < 1000000) }
    ensures in_bounds { InBounds result × (result.count ≤ lines.count + 1) }
    ensures adds_rule_if { AddsRuleIf out.old lines options segment drawn out.new result }
{
    if drawn {
        return add_rule(out, lines, options, segment);
    }
    lines
}

// The lines of a cell, each behind an empty prefix, of which the first takes the names that still wait.
fn add_cell(
    out: &mut [u8],
    added: Added,
    options: RenderOptions,
    names: &[u8],
    body: &[u8],
) -> Added
    requires { InBounds added.lines × (added.from ≤ length names.now) × (added.lines.count + length (raws body.now) < 1000000) }
    ensures in_bounds { InBounds result.lines × (result.from ≤ length names.now) × (result.lines.count ≤ added.lines.count + length (raws body.now)) }
    ensures adds_cell { AddsCell out.old added options names.now body.now out.new result }
{
    let mut next = added;
    for field in Fields::new(body) {
        if let Ok(field) = field {
            let waiting = &names[next.from..];
            let prefix = Prefix { text: &[], cols: 0 };
            next = Added {
                lines: add_prefixed(out, next.lines, options, waiting, prefix, field),
                from: names.len(),
            };
        }
    }
    next
}

// A cell behind a border of HorizVert, if that is to be drawn.
fn stack_cell(
    out: &mut [u8],
    added: Added,
    options: RenderOptions,
    names: &[u8],
    cell: Field<'_>,
    drawn: bool,
) -> Added
    requires { InBounds added.lines × (added.from ≤ length names.now) × (added.lines.count < 900000) }
    ensures in_bounds { InBounds result.lines × (result.from ≤ length names.now) × (result.lines.count ≤ added.lines.count + 21846) }
    ensures stacks_cell { StacksCell out.old added options names.now drawn (whole_of cell.entry) out.new result }
{
    let lines = add_rule_if(out, added.lines, options, 5, drawn);
    let ruled = Added { lines, ..added };
    match cell.content {
        [_, body @ ..] => add_cell(out, ruled, options, names, body),
        _ => ruled,
    }
}

// Each cell, with a border of HorizVert before all but the first, if borders are on.
pub fn add_cells(
    out: &mut [u8],
    lines: Lines,
    options: RenderOptions,
    names: &[u8],
    cells: &[u8],
) -> Added
    requires { InBounds lines × (lines.count ≤ 65535) × (length (raws cells.now) ≤ 16) }
    ensures in_bounds { InBounds result.lines × (result.from ≤ length names.now) × (result.lines.count < 1000000) }
    ensures adds_cells { AddsCells out.old lines options names.now cells.now out.new result }
{
    let mut next = Added { lines, from: 0 };
    let mut between = false;
    for cell in Fields::new(cells) {
        if let Ok(cell) = cell {
            next = stack_cell(out, next, options, names, cell, between);
            between = options.borders;
        }
    }
    next
}
