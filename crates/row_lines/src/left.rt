// The lines that a seat has left. What a function here requires, its callers in this crate show.
ghost use Rattle.std.specs.Prelude.{◌≡◌, ◌≤◌, length};
ghost use Rattle.rows.proofs.Reading.{Bytes};
ghost use Rattle.row_lines.specs.Left.{last, FindsFirst, MovesOn, FindsLeft};

use crate::seat::leaves_pattern;
use bodies::walk::without_top;
use fields::list::split_field;

// All of them, behind a first border that collapsing takes off.
#[tactic(auto, using(crate::proofs::LeftLaws::first_off, crate::proofs::LeftLaws::first_plain))]
pub fn first_lines(lines: &[u8], collapse: bool) -> &[u8]
    ensures known { Bytes lines.now }
    ensures shorter { length result.now ≤ length lines.now }
    ensures ends { result.now ≡ last (length result.now) lines.now }
    ensures finds_first { FindsFirst lines.now collapse result.now }
{
    if collapse { without_top(lines) } else { lines }
}

// Those behind the next line: a last border that collapsing takes off stays.
#[tactic(auto, using(crate::proofs::LeftLaws::moves_none, crate::proofs::LeftLaws::moves_off, crate::proofs::LeftLaws::moves_line))]
fn next_lines(left: &[u8], collapse: bool) -> &[u8]
    ensures shorter { length result.now ≤ length left.now }
    ensures moves_on { MovesOn left.now collapse result.now }
{
    match split_field(left) {
        Some((line, rest)) if !leaves_pattern(collapse, line, rest) => rest,
        _ => left,
    }
}

// Those that are left so many lines down.
pub fn lines_down(lines: &[u8], collapse: bool, n: usize) -> &[u8]
    ensures shorter { length result.now ≤ length lines.now }
    ensures finds_left { FindsLeft lines.now collapse n result.now }
{
    let mut left = first_lines(lines, collapse);
    for _ in 0..n {
        left = next_lines(left, collapse);
    }
    left
}
