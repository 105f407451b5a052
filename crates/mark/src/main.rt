// Reads a timing sheet from standard input and prints its line, or that of its refusal.
#![tactic(auto)]

use anyhow::Context;
use line::lines::MOST_LINE;
use marker::report::{MOST_BYTES, Marker};
use std::io::{Read, Write};

fn run(rt: &HostRuntime) -> anyhow::Result<()> {
    let heap = rt.alloc();
    let mut marker = Marker::reserve(heap)?;
    // One byte more, so that the end is seen without more room.
    let mut input = Vec::with_capacity(heap, MOST_BYTES + 1)?;
    rt.stdin().take(MOST_BYTES as u64).read_to_end(&mut input)?;
    // Kept: a line is written without allocating, into memory that is lent.
    let mut text = [0; MOST_LINE];
    let end = marker
        .sheet(&input, &mut text, 0)
        .ok()
        .context("a line is too long")?;
    rt.stdout().write_all(&text[..end])?;
    Ok(())
}

fn main(rt: HostRuntime) -> anyhow::Result<()> {
    run(&rt)
}
