// Replays stored calls with their answers. The file on standard input is made by `oracle vectors` and is a list of records: the kind (0 a
// job for `render`, 1 `append_subrender`, 2 `append_columns_with_borders`, 3 `append_vert_row`); the sheet's width, flags (bit 0 pad,
// bit 1 borders, bit 2 "the last prefix repeats" or collapse), annotation and two zeros, all zero for a job; the inputs, one for a job, three
// for kind 1 and two else, each a length of three bytes and that many bytes; the store's length in three bytes; the number; a length of
// four bytes; and, if the number is 0, the sheet. The store is filled with EE before the call, and number, length and every byte of the
// store are compared. An input, a sheet or a store of more than 262,144 bytes is not read; the five spaces take 1,310,720 bytes of stack.
// The committed file, crates/calls_test/stdin, was made by oracle/stored; its stores have at most 65,536 bytes, but for records at the limits.
#![tactic(auto)]

ghost use Rattle.std.specs.Prelude.{◌<◌};

use append_columns::append_columns_with_borders;
use append_subrender::{append_subrender, append_vert_row};
use fields::refusal::Refusal;
use input::read_full;
use render::render;
use rows::RenderOptions;
use std::io;
use std::io::{Stdin, Stdout};

// What fills the store before the call.
const FILL: u8 = 0xEE;

// The size of each space.
const SPACE: usize = 262144;

// Why a record does not come to the same: reading fails, it cannot be read whole, or its call gets another answer.
#[derive(Drop)]
enum Failure {
    Io(io::Error),
    Unread,
    Different,
}

impl From<io::Error> for Failure {
    fn from(error: io::Error) -> Failure {
        Failure::Io(error)
    }
}

// The calls.
#[derive(Clone, Copy, Debug, PartialEq, Eq)]
enum Kind {
    Job,
    Subrender,
    Columns,
    VertRow,
}

impl TryFrom<u8> for Kind {
    type Error = Failure;

    fn try_from(byte: u8) -> Result<Kind, Failure> {
        match byte {
            0 => Ok(Kind::Job),
            1 => Ok(Kind::Subrender),
            2 => Ok(Kind::Columns),
            3 => Ok(Kind::VertRow),
            _ => Err(Failure::Unread),
        }
    }
}

// Which call a record asks for, what comes with it, and its own flag: whether the last prefix repeats, or whether to collapse.
#[derive(Clone, Copy, Debug, PartialEq, Eq)]
struct Call {
    kind: Kind,
    options: RenderOptions,
    flag: bool,
}

// The inputs of a call: a job or a sheet, a guest sheet or cells, and prefixes.
#[derive(Clone, Copy)]
struct Inputs<'a, 'b, 'c> {
    first: &'a [u8],
    second: &'b [u8],
    third: &'c [u8],
}

// The length of the store, and the number and the length that the call must say.
#[derive(Clone, Copy, Debug, PartialEq, Eq)]
struct Answer {
    store: usize,
    number: u8,
    length: usize,
}

// How many records there were, how many of them differ, and how often each kind and each number came.
#[derive(Drop)]
struct Tally {
    records: u64,
    differences: u64,
    kinds: [u64; 256],
    numbers: [u64; 256],
}

impl Tally {
    // Counts a record that comes to the same, by its kind and its number.
    fn count(&mut self, kind: Kind, number: u8) {
        self.records = self.records.wrapping_add(1);
        let kinds = &mut self.kinds[usize::from(kind as u8)];
        *kinds = kinds.wrapping_add(1);
        let numbers = &mut self.numbers[usize::from(number)];
        *numbers = numbers.wrapping_add(1);
    }

    // Counts a record that does not.
    fn count_difference(&mut self) {
        self.records = self.records.wrapping_add(1);
        self.differences = self.differences.wrapping_add(1);
    }
}

// A number of three bytes, the high byte first.
fn three(bytes: [u8; 3]) -> usize
    ensures { result < 16777216 }
{
    let [high, middle, low] = bytes;
    usize::from(high) * 65536 + usize::from(middle) * 256 + usize::from(low)
}

// Reads bytes that fill the slice.
fn read(from: &mut Stdin, bytes: &mut [u8]) -> Result<(), Failure> {
    let len = bytes.len();
    if read_full(from, bytes)? != len {
        return Err(Failure::Unread);
    }
    Ok(())
}

// Reads which call a record asks for, if one is left.
fn read_call(from: &mut Stdin) -> Result<Option<Call>, Failure> {
    let mut head = [0u8; 6];
    let got = read_full(from, &mut head)?;
    if got == 0 {
        return Ok(None);
    }
    if got != 6 {
        return Err(Failure::Unread);
    }
    let [kind, width, flags, annotation, _, _] = head;
    Ok(Some(Call {
        kind: Kind::try_from(kind)?,
        options: RenderOptions {
            width,
            pad: flags & 1 != 0,
            borders: flags & 2 != 0,
            annotation,
        },
        flag: flags & 4 != 0,
    }))
}

// Reads an input into the start of its space.
fn read_input<'a>(from: &mut Stdin, space: &'a mut [u8]) -> Result<&'a [u8], Failure> {
    let mut length = [0u8; 3];
    read(from, &mut length)?;
    match space.get_mut(..three(length)) {
        Some(input) => {
            read(from, input)?;
            Ok(input)
        }
        None => Err(Failure::Unread),
    }
}

// The same for an input that only some calls have; for the others it is empty.
fn read_further<'a>(
    from: &mut Stdin,
    there: bool,
    space: &'a mut [u8],
) -> Result<&'a [u8], Failure> {
    if there {
        return read_input(from, space);
    }
    Ok(&[])
}

// An input, or none where it cannot be read whole: the inputs behind it are read all the same.
fn whole<'a>(input: Result<&'a [u8], Failure>) -> io::Result<Option<&'a [u8]>> {
    match input {
        Ok(input) => Ok(Some(input)),
        Err(Failure::Io(error)) => Err(error),
        Err(_) => Ok(None),
    }
}

// Reads what stands between a record's inputs and its sheet.
fn read_answer(from: &mut Stdin) -> Result<Answer, Failure> {
    let mut bytes = [0u8; 8];
    read(from, &mut bytes)?;
    let [a, b, c, number, high, d, e, f] = bytes;
    Ok(Answer {
        store: three([a, b, c]),
        number,
        length: usize::from(high) * 16777216 + three([d, e, f]),
    })
}

// Is the store the sheet, and one byte in every place past it?
fn holds(store: &[u8], sheet: &[u8], past: u8) -> bool {
    match store.split_at_checked(sheet.len()) {
        Some((start, rest)) => start == sheet && rest.iter().all(|byte| *byte == past),
        None => false,
    }
}

// Does the call say the number and the length?
fn says(said: Result<usize, Refusal>, answer: Answer) -> bool {
    match said {
        Ok(length) => answer.number == 0 && answer.length == length,
        Err(refusal) => { answer.number == refusal.number() && answer.length == refusal.needed() }
    }
}

// The call that a record asks for.
fn run(call: Call, inputs: Inputs<'_, '_, '_>, store: &mut [u8]) -> Result<usize, Refusal> {
    let Call {
        kind,
        options,
        flag,
    } = call;
    let Inputs {
        first,
        second,
        third,
    } = inputs;
    match kind {
        Kind::Job => render(first, store),
        Kind::Subrender => append_subrender(options, first, second, third, flag, store),
        Kind::Columns => append_columns_with_borders(options, first, second, flag, store),
        Kind::VertRow => append_vert_row(options, first, second, store),
    }
}

// Does the call get the answer and leave the sheet in the store, or zeros?
fn agrees(
    call: Call,
    inputs: Inputs<'_, '_, '_>,
    answer: Answer,
    sheet: &[u8],
    store: &mut [u8],
) -> bool {
    store.fill(FILL);
    let said = run(call, inputs, store);
    let past = if answer.number == 0 { FILL } else { 0 };
    says(said, answer) && holds(store, sheet, past)
}

// Reads what a record has after its inputs, compares, and answers the number; what is longer than its space cannot be read.
fn replay_call(
    from: &mut Stdin,
    call: Call,
    inputs: Inputs<'_, '_, '_>,
    sheets: &mut [u8],
    stores: &mut [u8],
) -> Result<u8, Failure> {
    let answer = read_answer(from)?;
    let length = if answer.number == 0 { answer.length } else { 0 };
    let (Some(sheet), Some(store)) = (sheets.get_mut(..length), stores.get_mut(..answer.store))
    else {
        return Err(Failure::Unread);
    };
    read(from, sheet)?;
    if !agrees(call, inputs, answer, sheet, store) {
        return Err(Failure::Different);
    }
    Ok(answer.number)
}

// Reads and compares one record, if one is left, and answers its kind and its number. The spaces are five slices and no struct: the borrow
// checker lends the fields behind one reference one at a time.
fn replay(
    from: &mut Stdin,
    firsts: &mut [u8],
    seconds: &mut [u8],
    thirds: &mut [u8],
    sheets: &mut [u8],
    stores: &mut [u8],
) -> Result<Option<(Kind, u8)>, Failure> {
    let Some(call) = read_call(from)? else {
        return Ok(None);
    };
    let first = whole(read_input(from, firsts))?;
    let second = whole(read_further(from, call.kind != Kind::Job, seconds))?;
    let third = whole(read_further(from, call.kind == Kind::Subrender, thirds))?;
    let (Some(first), Some(second), Some(third)) = (first, second, third) else {
        return Err(Failure::Unread);
    };
    let inputs = Inputs {
        first,
        second,
        third,
    };
    let number = replay_call(from, call, inputs, sheets, stores)?;
    Ok(Some((call.kind, number)))
}

// Replays the records up to the end of the file.
fn replay_all(
    from: &mut Stdin,
    firsts: &mut [u8],
    seconds: &mut [u8],
    thirds: &mut [u8],
    sheets: &mut [u8],
    stores: &mut [u8],
    tally: &mut Tally,
) -> io::Result<()> {
    for _ in 0..u64::MAX {
        match replay(from, firsts, seconds, thirds, sheets, stores) {
            Ok(Some((kind, number))) => tally.count(kind, number),
            Ok(None) => break,
            Err(Failure::Io(error)) => return Err(error),
            Err(_) => tally.count_difference(),
        }
    }
    Ok(())
}

// Writes how often each number came, if it came, behind a word.
fn print_counts(out: &Stdout, word: &str, counts: &[u64; 256]) -> io::Result<()> {
    for (number, count) in counts.iter().enumerate() {
        if *count != 0 {
            println!(out; "{word} {number}: {count}")?;
        }
    }
    Ok(())
}

fn main(rt: HostRuntime) -> io::Result<()> {
    let mut firsts = [0u8; SPACE];
    let mut seconds = [0u8; SPACE];
    let mut thirds = [0u8; SPACE];
    let mut sheets = [0u8; SPACE];
    let mut stores = [0u8; SPACE];
    let mut tally = Tally {
        records: 0,
        differences: 0,
        kinds: [0; 256],
        numbers: [0; 256],
    };
    replay_all(
        &mut rt.stdin(),
        &mut firsts,
        &mut seconds,
        &mut thirds,
        &mut sheets,
        &mut stores,
        &mut tally,
    )?;
    let out = rt.stdout();
    println!(out; "records: {}", tally.records)?;
    print_counts(&out, "kind", &tally.kinds)?;
    print_counts(&out, "number", &tally.numbers)?;
    println!(out; "differences: {}", tally.differences)
}
