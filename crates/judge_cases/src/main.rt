// Judges each stored certificate of standard input against its sheet, and prints a line.
#![tactic(auto)]

mod answer;
mod container;

use answer::Case;
use anyhow::Context;
use container::{take_list, words_of};
use line::lines::MOST_LINE;
use sheet::room::SheetRoom;
use std::io::{Read, Write};

// Prints the line of one case.
fn print_case(rt: &HostRuntime, room: &mut SheetRoom, case: Case) -> anyhow::Result<()> {
    // Kept: a line is written without allocating, into memory that is lent.
    let mut line = [0; MOST_LINE];
    let end = case
        .answer(room, &mut line)
        .ok()
        .context("a line is too long")?;
    rt.stdout().write_all(&line[0..end])?;
    Ok(())
}

// Prints the line of every case of the container.
fn print_cases(rt: &HostRuntime, cases: &[u32]) -> anyhow::Result<()> {
    let mut room = SheetRoom::reserve(rt.alloc())?;
    let mut rest = cases;
    // Kept: each turn takes as much as the case says, which no iterator of the library does.
    while !rest.is_empty() {
        let (sheet, tail) = take_list(rest).context("the last sheet is cut short")?;
        let (certificate, tail) = take_list(tail).context("the last certificate is cut short")?;
        let case = Case { sheet, certificate };
        print_case(rt, &mut room, case)?;
        rest = tail;
    }
    Ok(())
}

fn run(rt: &HostRuntime) -> anyhow::Result<()> {
    let mut bytes = Vec::new(rt.alloc());
    rt.stdin().read_to_end(&mut bytes)?;
    let cases = words_of(rt.alloc(), &bytes)?;
    print_cases(rt, &cases)
}

fn main(rt: HostRuntime) -> anyhow::Result<()> {
    run(&rt)
}
