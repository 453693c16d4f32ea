// Reads sheets from standard input, one after the other, and prints them for a person (document 01, "the sheet"; requests 2.1 and 2.2): a line `sheet of`
// and its number of lines, then each line. A line of text is the word `text` and its pieces, a text as its annotation and its bytes in quotes, a name as the
// word `name` and its bytes in quotes; a border is the word `border`, its annotation, its segments and its holes, each as the word `hole`, its column and its
// piece. A name that waits is a line `waits` with the name. A hanging cell is a line `hanging at` with its position, its width and the rows left to it, then
// its lines behind two spaces. What is no sheet, no line, no piece or no hole prints `broken` and ends the run, and so does a sheet that ends early. An input
// of more than 65,536 bytes prints `refused 1`.
#![tactic(auto)]

ghost use Rattle.std.specs.Prelude.{◌≤◌, ◌<◌, ◌-◌, length, IfOk};

use input::read_full;
use reader::hanging::{Hanging, Overhang};
use reader::hole::Holes;
use reader::line::{CellLine, Line, Lines};
use reader::piece::{Piece, Pieces};
use reader::reader::Reader;
use reader::waiting::{Name, Names};
use reader::walk::Broken;
use std::io;
use std::io::Stdout;

// Why a run ends early.
#[derive(Drop)]
enum Failure {
    Sheet(Broken),
    Output(io::Error),
}

impl From<Broken> for Failure {
    fn from(broken: Broken) -> Self {
        Failure::Sheet(broken)
    }
}

impl From<io::Error> for Failure {
    fn from(error: io::Error) -> Self {
        Failure::Output(error)
    }
}

// Writes bytes as they stand, in quotes: a text need not be UTF-8 here, so it has no Display.
fn quote(out: &Stdout, bytes: &[u8]) -> io::Result<()> {
    out.write_all(b"\"")?;
    out.write_all(bytes)?;
    out.write_all(b"\"")
}

// Writes a name.
fn show_name(out: &Stdout, name: &[u8]) -> io::Result<()> {
    print!(out; "  name ")?;
    quote(out, name)
}

// Writes a piece: a text with its annotation, or a name.
fn show_piece(out: &Stdout, piece: Piece<'_>) -> io::Result<()> {
    match piece {
        Piece::Text { annotation, text } => {
            print!(out; "  {annotation} ")?;
            quote(out, text)
        }
        Piece::Name(name) => show_name(out, name),
    }
}

// Writes the pieces of a line.
fn show_pieces(out: &Stdout, pieces: Pieces<'_>) -> Result<(), Failure> {
    for piece in pieces {
        show_piece(out, piece?)?;
    }
    Ok(())
}

// Writes a border's annotation and its segments, two spaces before the first.
fn show_segments(out: &Stdout, annotation: u8, segments: &[u8]) -> io::Result<()> {
    print!(out; "border {annotation}")?;
    if !segments.is_empty() {
        print!(out; " ")?;
    }
    for segment in segments {
        print!(out; " {segment}")?;
    }
    Ok(())
}

// Writes the holes of a border.
fn show_holes(out: &Stdout, holes: Holes<'_>) -> Result<(), Failure> {
    for hole in holes {
        let hole = hole?;
        print!(out; "  hole {}", hole.column)?;
        show_piece(out, hole.piece)?;
    }
    Ok(())
}

// Writes a line, whose end is written too where what stands on it is broken; where writing fails, nothing more is written.
fn show_line(out: &Stdout, line: Line<'_>) -> Result<(), Failure> {
    let shown = match line {
        Line::Text(pieces) => {
            print!(out; "text")?;
            show_pieces(out, pieces)
        }
        Line::Border {
            annotation,
            segments,
            holes,
        } => {
            show_segments(out, annotation, segments)?;
            show_holes(out, holes)
        }
    };
    match shown {
        Err(Failure::Output(error)) => Err(Failure::Output(error)),
        shown => {
            println!(out; "")?;
            shown
        }
    }
}

// Writes as many lines as a sheet's head says, and answers the bytes behind them: a `for` over the lines would take the walk, whose place is asked for then.
#[tactic(auto, using(reader::proofs::Places::place_on))]
fn show_lines<'a>(out: &Stdout, mut lines: Lines<'a>, count: u16) -> Result<&'a [u8], Failure>
    ensures { IfOk result (λ rest. length rest.now ≤ length lines.entry.bytes.now - lines.entry.at) }
{
    for _ in 0..count {
        let line = lines.step().ok_or(Broken)??;
        show_line(out, line)?;
    }
    Ok(lines.rest())
}

// Writes the names that wait, and answers the bytes behind them.
#[tactic(auto, using(reader::proofs::Places::place_on))]
fn show_names<'a>(out: &Stdout, mut names: Names<'a>) -> io::Result<&'a [u8]>
    ensures { IfOk result (λ rest. length rest.now ≤ length names.entry.bytes.now - names.entry.at) }
{
    while let Some(Ok(Name(name))) = names.step() {
        print!(out; "waits")?;
        show_name(out, name)?;
        println!(out; "")?;
    }
    Ok(names.rest())
}

// Writes a hanging cell: its position, its width and the rows left to it, and its lines, which reach its end.
fn show_hanging(out: &Stdout, cell: Hanging<'_>) -> Result<(), Failure> {
    println!(out;
        "hanging at {}, width {}, rows left {}",
        cell.position, cell.width, cell.rows
    )?;
    let mut lines = cell.lines;
    while let Some(line) = lines.step() {
        let CellLine(line) = line?;
        print!(out; "  ")?;
        show_line(out, line)?;
    }
    if !lines.rest().is_empty() {
        return Err(Failure::Sheet(Broken));
    }
    Ok(())
}

// Writes the hanging cells, and answers the bytes behind them.
#[tactic(auto, using(reader::proofs::Places::place_on))]
fn show_overhang<'a>(out: &Stdout, mut overhang: Overhang<'a>) -> Result<&'a [u8], Failure>
    ensures { IfOk result (λ rest. length rest.now ≤ length overhang.entry.bytes.now - overhang.entry.at) }
{
    while let Some(Ok(cell)) = overhang.step() {
        show_hanging(out, cell)?;
    }
    Ok(overhang.rest())
}

// Writes the first sheet of a byte list, and answers the bytes behind it.
fn show_sheet<'a>(out: &Stdout, bytes: &'a [u8]) -> Result<&'a [u8], Failure>
    ensures { IfOk result (λ rest. length rest.now < length bytes.now) }
{
    let [b'H', 0, 2, high, low, ..] = bytes else {
        return Err(Failure::Sheet(Broken));
    };
    let count = u16::from_be_bytes([*high, *low]);
    println!(out; "sheet of {count} lines")?;
    let behind = show_lines(out, Reader::new(bytes).lines(), count)?;
    let behind = show_names(out, Names::new(behind, 0))?;
    show_overhang(out, Overhang::new(behind, 0))
}

// Writes one sheet after the other.
fn show_sheets(out: &Stdout, input: &[u8]) -> Result<(), Failure> {
    let mut left = input;
    while !left.is_empty() {
        left = show_sheet(out, left)?;
    }
    Ok(())
}

// One byte more than is shown is read, so that a longer input shows.
fn main(rt: HostRuntime) -> io::Result<()> {
    let mut input = [0u8; 65537];
    let out = rt.stdout();
    let len = read_full(&mut rt.stdin(), &mut input)?;
    if len == input.len() {
        return println!(out; "refused 1");
    }
    match show_sheets(&out, &input[..len]) {
        Ok(()) => Ok(()),
        Err(Failure::Sheet(broken)) => println!(out; "{broken}"),
        Err(Failure::Output(error)) => Err(error),
    }
}
