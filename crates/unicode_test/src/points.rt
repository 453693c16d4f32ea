// The columns and the white space of every code point, compared with the data.
use crate::data::{Class, END, Run, after_comments};
use characters::columns::{Columns, columns_of};
use characters::whitespace::{always_takes_space, is_whitespace, is_wordbreak_point};
use std::io::Stdout;
use std::num::Wrapping;
use std::{fmt, io};

// What was seen of the code points so far.
#[derive(Clone, Copy, Default)]
struct Seen {
    listed: Wrapping<u32>,
    controls: Wrapping<u32>,
    zero: Wrapping<u32>,
    one: Wrapping<u32>,
    two: Wrapping<u32>,
    white: Wrapping<u32>,
    white_off: Wrapping<u32>,
    differences: Wrapping<u32>,
}

impl Seen {
    // One code point more. What is off the list must be no white space to the crate.
    fn count(&mut self, out: &Stdout, code: u32, class: Class) -> io::Result<()> {
        let columns = columns_of(code);
        let listed = columns != Columns::OffList;
        match columns {
            Columns::Control => self.controls += 1,
            Columns::Cols(0) => self.zero += 1,
            Columns::Cols(1) => self.one += 1,
            Columns::Cols(_) => self.two += 1,
            Columns::OffList => {}
        }
        // White space that is off the list is written and is no difference: document 01 leaves it out.
        if class.white && !listed {
            println!(out; "white space left out: U+{code:04x}")?;
            self.white_off += 1;
        }
        let white = class.white && listed;
        self.listed += u32::from(listed);
        self.white += u32::from(white);
        if !columns_agree(code, class, columns) || !white_agrees(code, white) {
            self.differences += 1;
        }
        Ok(())
    }
}

// The counts, a line each.
impl fmt::Display for Seen {
    fn fmt<W: fmt::Write>(&self, f: &mut fmt::Formatter<W>) -> fmt::Result {
        writeln!(f, "on the list: {}", self.listed)?;
        writeln!(f, "controls: {}", self.controls)?;
        writeln!(f, "with 0 columns: {}", self.zero)?;
        writeln!(f, "with 1 column: {}", self.one)?;
        writeln!(f, "with 2 columns: {}", self.two)?;
        writeln!(f, "white space on the list: {}", self.white)?;
        write!(f, "white space off the list: {}", self.white_off)
    }
}

// What a character on the list must answer: a control for Cc; 0 columns for Mn, Me and U+200B;
// 2 for W and F; else 1.
fn due(code: u32, class: Class) -> Columns {
    if class.control {
        Columns::Control
    } else if class.mark || code == 0x200B {
        Columns::Cols(0)
    } else if class.wide {
        Columns::Cols(2)
    } else {
        Columns::Cols(1)
    }
}

// Whether `columns_of` may answer so: on the list only what is assigned, without U+0000 and with
// every control.
fn columns_agree(code: u32, class: Class, columns: Columns) -> bool {
    if columns == Columns::OffList {
        code == 0 || !class.control
    } else {
        code != 0 && class.assigned && columns == due(code, class)
    }
}

// Whether the three questions on white space are answered for a code point that is white or not, by
// the Rust's rules: U+00A0 takes space and never breaks a word, and U+200B breaks one.
fn white_agrees(code: u32, white: bool) -> bool {
    is_whitespace(code) == white
        && always_takes_space(code) == (code == 0xA0 || !white)
        && is_wordbreak_point(code) == (code != 0xA0 && (code == 0x200B || white))
}

// Walks all code points, writes the counts and answers the number of differences.
pub fn compare(out: &Stdout, text: &[u8]) -> io::Result<Wrapping<u32>> {
    let mut next = Run::split(after_comments(text));
    let mut run_count = Wrapping(0u32);
    let mut class = Class::default();
    let mut seen = Seen::default();
    for code in 0..END {
        if let Some((run, rest)) = next
            && run.first == code
        {
            class = run.class;
            run_count += 1;
            next = Run::split(rest);
        }
        seen.count(out, code, class)?;
    }
    println!(out; "runs of the data: {run_count}")?;
    println!(out; "code points: {END}")?;
    println!(out; "{seen}")?;
    Ok(seen.differences)
}
