// Lists that are no sheets at all.
use crate::drum::{DRUM, is_drum};
use crate::list::*;
use crate::outcome::{drum_room, refusal, refused};
use std::test::Fail;

// The first words of a list, the word that fills it up, the refusal's number and its place.
// Kept: tests state the number that is printed, which an enum of faults would leave to the code under test.
struct Case(&'static [u32], u32, u8, usize);

const FILLED: [Case; 5] = [
    Case(&[], 0, 1, 0),
    Case(&[], u32::MAX, 1, 0),
    Case(&[HEAD | 1], BLOCK | 1, 1, 2),
    Case(&[HEAD | 1, BLOCK | 1, LBLOCK, COST], EDGE | 1, 6, 4),
    Case(
        &[HEAD | 1, BLOCK | 1, LBLOCK, COST, BLOCK | 1, LBLOCK, COST],
        FACT | 1 << 14,
        5,
        39,
    ),
];

#[test]
fn long_lists_without_end(rt: HostRuntime) -> Result<(), Fail> {
    let mut room = drum_room(rt.alloc())?;
    for Case(first, word, number, place) in &FILLED {
        let mut list = first.to_vec(rt.alloc())?;
        list.resize(4096, *word)?;
        refused(&mut room, list.as_slice(), *number, *place)?;
    }
    Ok(())
}

// The next word of a fixed sequence without order.
fn stirred(word: u32) -> u32 {
    let word = word ^ word << 13;
    let word = word ^ word >> 17;
    word ^ word << 5
}

// Up to 15 words of the drum task, then up to 4 words without order.
#[test]
fn words_without_order(rt: HostRuntime) -> Result<(), Fail> {
    let mut room = drum_room(rt.alloc())?;
    let mut word = 2463534242;
    for i in 0..400usize {
        let mut list = DRUM[0..i % 16].to_vec(rt.alloc())?;
        for _ in 0..1 + i % 4 {
            word = stirred(word);
            list.push(word)?;
        }
        assert!(rt; refusal(&mut room, list.as_slice()).is_some(), "list {i}");
        assert!(rt; is_drum(room.sheet()), "after list {i}");
    }
    Ok(())
}
