// Compares the crate `characters` with the published Unicode data. Standard input has the data, as
// tools/unicode_table.py writes it. Every code point is asked for its columns and white space and is
// read back from its UTF-8 bytes, and strings of one to four bytes are held to table 3-7. The program
// writes what it counted, and last how many answers differ.
#![tactic(auto)]

mod data;
mod encoding;
mod points;
mod strings;
mod well_formed;

use input::read_full;
use std::io;

fn main(rt: HostRuntime) -> io::Result<()> {
    let mut text = [0u8; 65536];
    let n = read_full(&mut rt.stdin(), &mut text)?;
    let out = rt.stdout();
    let mut differences = points::compare(&out, &text[..n])?;
    differences += encoding::compare(&out)?;
    differences += strings::compare(&out)?;
    println!(out; "differences: {differences}")
}
