// Marks each stored input of standard input, and prints its lines and an empty line.
#![tactic(auto)]

mod container;

use anyhow::Context;
use container::take_input;
use marker::report::Marker;
use std::io::{Read, Write};

// Prints the lines of one input, and an empty line.
fn print_case(
    rt: &HostRuntime,
    marker: &mut Marker,
    input: &[u8],
    text: &mut Vec<u8>,
) -> anyhow::Result<()> {
    text.clear();
    marker.mark(input, text)?;
    text.push(b'\n')?;
    rt.stdout().write_all(text)?;
    Ok(())
}

// Prints every case of the container.
fn print_cases(rt: &HostRuntime, cases: &[u8]) -> anyhow::Result<()> {
    let mut marker = Marker::reserve(rt.alloc())?;
    let mut text = Vec::new(rt.alloc());
    let mut rest = cases;
    // Kept: each turn takes as much as the case says, which no iterator of the library does.
    while !rest.is_empty() {
        let (input, tail) = take_input(rest).context("the last case is cut short")?;
        print_case(rt, &mut marker, input, &mut text)?;
        rest = tail;
    }
    Ok(())
}

fn run(rt: &HostRuntime) -> anyhow::Result<()> {
    let mut cases = Vec::new(rt.alloc());
    rt.stdin().read_to_end(&mut cases)?;
    print_cases(rt, &cases)
}

fn main(rt: HostRuntime) -> anyhow::Result<()> {
    run(&rt)
}
