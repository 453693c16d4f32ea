// Reads a job from standard input and writes its sheet, or one line `refused ` and the number (document 01).
#![tactic(auto)]

use fields::refusal::Refusal;
use input::read_full;
use render::render;
use std::io;
use std::io::Stdout;

// Writes the first bytes of the store.
fn write_sheet(out: &Stdout, store: &[u8], len: usize) -> io::Result<()> {
    if let Some(sheet) = store.get(..len) {
        out.write_all(sheet)?;
    }
    Ok(())
}

// Says a refusal.
fn refuse(out: &Stdout, refusal: Refusal) -> io::Result<()> {
    println!(out; "refused {}", refusal.number())
}

// Writes the job's sheet or says its refusal.
fn answer(out: &Stdout, job: &[u8], store: &mut [u8]) -> io::Result<()> {
    match render(job, store) {
        Ok(len) => write_sheet(out, store, len),
        Err(refusal) => refuse(out, refusal),
    }
}

// One byte more than a job can have is read, so that a longer input shows.
fn main(rt: HostRuntime) -> io::Result<()> {
    let mut input = [0u8; 65537];
    let mut store = [0u8; 65536];
    let out = rt.stdout();
    let len = read_full(&mut rt.stdin(), &mut input)?;
    if len == 65537 {
        refuse(&out, Refusal::CrookedRecord)
    } else {
        answer(&out, &input[..len], &mut store)
    }
}
