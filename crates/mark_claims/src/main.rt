// Marks the words of standard input, and prints the lines.
#![tactic(auto)]

use marker::report::Marker;
use std::io::{Read, Write};

fn run(rt: &HostRuntime) -> anyhow::Result<()> {
    let heap = rt.alloc();
    let mut marker = Marker::reserve(heap)?;
    let mut input = Vec::new(heap);
    rt.stdin().read_to_end(&mut input)?;
    let mut text = Vec::new(heap);
    marker.mark(&input, &mut text)?;
    rt.stdout().write_all(&text)?;
    Ok(())
}

fn main(rt: HostRuntime) -> anyhow::Result<()> {
    run(&rt)
}
