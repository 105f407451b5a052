// Times the reading of a sheet and the judging of its certificate. The words of the one and then the other come from standard input.
#![tactic(auto)]

use anyhow::ensure;
use claim::judge::judge;
use sheet::room::SheetRoom;
use std::alloc::{AllocError, Global};
use std::io;
use std::io::{BufReader, Read};
use std::time::{Duration, Instant};
use words::refusal::{Refusal, Refuse};
use words::word::Kind;

// The most bytes that are read: those of two lists of 4,096 words.
const MOST_INPUT: usize = 32768;

// How often a thing is timed.
const ROUNDS: usize = 401;

// The big-endian words of the bytes.
// Kept: `judge_cases` has one of its own, which refuses a cut last word; each is one chain of the library's methods.
fn words_of(heap: Global, bytes: &[u8]) -> Result<Vec<u32>, AllocError> {
    let (chunks, _) = bytes.as_chunks::<4>();
    chunks
        .iter()
        .map(|chunk| u32::from_be_bytes(*chunk))
        .collect(heap)
}

// The bytes of the first list, up to its END, and those that follow it; none follow where there is no END.
fn split_list(bytes: &[u8]) -> (&[u8], &[u8]) {
    let (chunks, _) = bytes.as_chunks::<4>();
    let end = chunks.iter().position(|chunk| Kind::from(u32::from_be_bytes(*chunk)) == Kind::End);
    match end {
        Some(place) => bytes.split_at(4 * (place + 1)),
        None => (bytes, &[]),
    }
}

// A span in nanoseconds.
fn nanos(span: Duration) -> u64 {
    u64::try_from(span.as_nanos()).unwrap_or(u64::MAX)
}

// Prints the shortest and the middle one of the times.
fn print_times(rt: &HostRuntime, name: &str, times: &mut Vec<u64>) -> io::Result<()> {
    times.sort_unstable();
    let best = times.first().copied().unwrap_or(0);
    let median = times.get(times.len() / 2).copied().unwrap_or(0);
    println!(rt; "{name} best {best} median {median}")
}

// Times reading the sheet again and again. Each round takes its words anew, so that no reading can be left out.
// Kept: two loops, since with the timed call in a closure the best reading time rose from 2.17 to 2.34 ms.
fn time_sheet(rt: &HostRuntime, room: &mut SheetRoom, bytes: &[u8]) -> anyhow::Result<()> {
    let heap = rt.alloc();
    let mut times = Vec::with_capacity(heap, ROUNDS)?;
    // Kept: a count of rounds, not an index.
    for _ in 0..ROUNDS {
        let words = words_of(heap, bytes)?;
        let start = Instant::now(rt)?;
        let answer = room.read(&words);
        let span = start.elapsed(rt)?;
        ensure!(answer.is_ok(), "the sheet is refused");
        times.push(nanos(span))?;
    }
    print_times(rt, "sheet", &mut times)?;
    Ok(())
}

// Times judging the certificate again and again, its words taken anew in each round, and prints the verdict.
fn time_judge(rt: &HostRuntime, room: &SheetRoom, bytes: &[u8]) -> anyhow::Result<()> {
    let heap = rt.alloc();
    let mut times = Vec::with_capacity(heap, ROUNDS)?;
    let mut accepted = 0;
    // Kept: a count of rounds, not an index.
    for _ in 0..ROUNDS {
        let words = words_of(heap, bytes)?;
        let start = Instant::now(rt)?;
        let answer = judge(room.sheet(), &words);
        let span = start.elapsed(rt)?;
        match answer {
            Ok(w) => accepted = w.0,
            Err(fault) => {
                let Refusal { number, place, .. } = fault.refusal();
                println!(rt; "claim refused {number} at {place}")?;
                return Ok(());
            }
        }
        times.push(nanos(span))?;
    }
    print_times(rt, "judge", &mut times)?;
    println!(rt; "accepted {accepted}")?;
    Ok(())
}

// What standard input has, up to the most that is timed. A read asks for all that is left of that, so that it takes a whole message of a socket.
fn read_input(rt: &HostRuntime) -> anyhow::Result<Vec<u8>> {
    let heap = rt.alloc();
    // One byte more, so that the end is seen without more room.
    let mut input = Vec::with_capacity(heap, MOST_INPUT + 1)?;
    let limited = rt.stdin().take(MOST_INPUT as u64);
    BufReader::with_capacity(heap, MOST_INPUT, limited)?.read_to_end(&mut input)?;
    Ok(input)
}

// Times what standard input has.
fn run(rt: &HostRuntime) -> anyhow::Result<()> {
    let input = read_input(rt)?;
    if input.is_empty() {
        println!(rt; "nothing to time")?;
        return Ok(());
    }
    let (sheet, certificate) = split_list(&input);
    let mut room = SheetRoom::reserve(rt.alloc())?;
    time_sheet(rt, &mut room, sheet)?;
    time_judge(rt, &room, certificate)
}

// Reports what goes wrong.
fn main(rt: HostRuntime) -> anyhow::Result<()> {
    run(&rt)
}
