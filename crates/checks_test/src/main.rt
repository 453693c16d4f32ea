// Replays stored inputs with the refusal that each must get. The file on standard input is made by
// `oracle checks` and is a list of records: a kind byte (0 job, 1 sheet, 2 list of cells, 3 list of
// prefixes), a length of three bytes, the high byte first, that many bytes, and the number. The committed file,
// crates/checks_test/stdin, was made by oracle/stored.
#![tactic(auto)]

use checks::cells::check_cells;
use checks::sheet::check_sheet;
use fields::job::check_job;
use fields::prefixes::check_prefixes;
use input::read_full;
use std::io;
use std::io::Stdin;

// What an input is.
#[derive(Clone, Copy, Debug, PartialEq, Eq)]
enum Kind {
    Job,
    Sheet,
    Cells,
    Prefixes,
}

// A byte that stands for no kind.
#[derive(Clone, Copy, Debug, PartialEq, Eq)]
struct UnknownKind(u8);

impl TryFrom<u8> for Kind {
    type Error = UnknownKind;

    fn try_from(byte: u8) -> Result<Kind, UnknownKind> {
        match byte {
            0 => Ok(Kind::Job),
            1 => Ok(Kind::Sheet),
            2 => Ok(Kind::Cells),
            3 => Ok(Kind::Prefixes),
            _ => Err(UnknownKind(byte)),
        }
    }
}

// How many records there were, and how many of them differ.
#[derive(Clone, Copy, Debug, PartialEq, Eq)]
struct Tally {
    records: u64,
    differences: u64,
}

// The number of the refusal that an input of a kind gets; 0 where it passes.
fn number(kind: Kind, input: &[u8]) -> u8 {
    let checked = match kind {
        Kind::Job => check_job(input).map(|_| ()),
        Kind::Sheet => check_sheet(input),
        Kind::Cells => check_cells(input),
        Kind::Prefixes => check_prefixes(input),
    };
    match checked {
        Ok(()) => 0,
        Err(refusal) => refusal.number(),
    }
}

// Reads the input, which fills the slice, and its number, and says whether its refusal is that number.
fn agrees(from: &mut Stdin, kind: u8, input: &mut [u8]) -> io::Result<bool> {
    let length = input.len();
    if read_full(from, input)? != length {
        return Ok(false);
    }
    let mut stored = [0u8; 1];
    if read_full(from, &mut stored)? != 1 {
        return Ok(false);
    }
    match Kind::try_from(kind) {
        Ok(kind) => Ok(number(kind, input) == stored[0]),
        Err(_) => Ok(false),
    }
}

// Reads one record, if one is left, and says whether it agrees; one that cannot be read whole does not.
fn replay(from: &mut Stdin, space: &mut [u8]) -> io::Result<Option<bool>> {
    let mut head = [0u8; 4];
    let got = read_full(from, &mut head)?;
    if got == 0 {
        return Ok(None);
    }
    if got != 4 {
        return Ok(Some(false));
    }
    let [kind, high, middle, low] = head;
    let length = usize::from(high) * 65536 + usize::from(middle) * 256 + usize::from(low);
    match space.get_mut(..length) {
        Some(input) => Ok(Some(agrees(from, kind, input)?)),
        None => Ok(Some(false)),
    }
}

// Replays the records up to the end of the file.
fn replay_all(from: &mut Stdin, space: &mut [u8]) -> io::Result<Tally> {
    let mut differences = 0;
    for records in 0..u64::MAX {
        let Some(same) = replay(from, space)? else {
            return Ok(Tally {
                records,
                differences,
            });
        };
        differences += u64::from(!same);
    }
    Ok(Tally {
        records: u64::MAX,
        differences,
    })
}

fn main(rt: HostRuntime) -> io::Result<()> {
    let mut space = [0u8; 262144];
    let Tally {
        records,
        differences,
    } = replay_all(&mut rt.stdin(), &mut space)?;
    let out = rt.stdout();
    println!(out; "inputs checked: {records}")?;
    println!(out; "differences: {differences}")
}
