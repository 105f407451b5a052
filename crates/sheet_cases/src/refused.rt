// Short lists and their refusals, and the lists next to them that are accepted.
use crate::drum::DRUM;
use crate::list::*;
use crate::outcome::{accepted, drum_room, refused};
use sheet::room::SheetRoom;
use std::alloc::Global;
use std::test::Fail;

// A list that is refused: its words after some first words, the refusal's number and its place.
// Kept: tests state the number that is printed, which an enum of faults would leave to the code under test.
struct Case(&'static [u32], u8, usize);

// Lists from their first word on.
const FIRST: [Case; 26] = [
    // The kind is not due.
    Case(&[0x0000_0000], 1, 0),
    Case(&[BLOCK | 1], 1, 0),
    Case(&[END], 1, 0),
    Case(&[HEAD | 1, HEAD | 1], 1, 1),
    Case(&[HEAD | 1, LBLOCK], 1, 1),
    Case(&[HEAD | 1, EDGE], 1, 1),
    Case(&[HEAD | 1, END | 1], 1, 1),
    Case(&[HEAD | 1, BLOCK | 1, BLOCK | 1], 1, 2),
    Case(&[HEAD | 1, BLOCK | 1, COST], 1, 2),
    Case(&[HEAD | 1, BLOCK | 1, LBLOCK, LBLOCK], 1, 3),
    Case(&[HEAD | 1, BLOCK | 1, LBLOCK, END | 3], 1, 3),
    Case(&[HEAD | 1, BLOCK | 2, LBLOCK, COST, BLOCK | 1], 1, 4),
    // The list ends early.
    Case(&[], 2, 0),
    Case(&[HEAD | 1], 2, 1),
    Case(&[HEAD | 1, BLOCK | 1], 2, 2),
    Case(&[HEAD | 1, BLOCK | 1, LBLOCK], 2, 3),
    Case(&[HEAD | 1, BLOCK | 2, LBLOCK, COST], 2, 4),
    // A field is outside its limit.
    Case(&[HEAD], 4, 0),
    Case(&[HEAD | 65], 4, 0),
    Case(&[HEAD | 0xFFF_FFFF], 4, 0),
    Case(&[HEAD | 1, BLOCK], 4, 1),
    Case(&[HEAD | 1, BLOCK | 17], 4, 1),
    Case(&[HEAD | 1, BLOCK | 0xFFF_FFFF], 4, 1),
    Case(&[HEAD | 1, BLOCK | 1, LBLOCK | 1 << 20], 4, 2),
    Case(&[HEAD | 64, BLOCK | 1, LBLOCK | 64 << 20], 4, 2),
    Case(&[HEAD | 64, BLOCK | 1, LBLOCK | 255 << 20], 4, 2),
];

// The fields of one block at their limits: set 63 of 64, the highest tag and costs.
const TOP: [u32; 4] = [
    HEAD | 64,
    BLOCK | 1,
    LBLOCK | 63 << 20 | 0xF_FFFF,
    COST | 0xFFF_FFFF,
];

// Lists after that block.
const AFTER_BLOCK: [Case; 17] = [
    // The kind is not due.
    Case(&[0x0000_0004], 1, 4),
    Case(&[HEAD | 64], 1, 4),
    Case(&[LBLOCK], 1, 4),
    Case(&[COST], 1, 4),
    Case(&[BACK], 1, 4),
    Case(&[0x9000_0001], 1, 4),
    Case(&[0xA000_0000], 1, 4),
    Case(&[0xB000_0000], 1, 4),
    Case(&[0xC000_0000], 1, 4),
    Case(&[0xD000_0000], 1, 4),
    Case(&[0xE000_0000], 1, 4),
    // The list ends early.
    Case(&[], 2, 4),
    // END counts wrong, or a word follows it.
    Case(&[END | 3], 3, 4),
    Case(&[END | 5], 3, 4),
    Case(&[END | 5, END | 5], 3, 4),
    Case(&[END | 4, END | 5], 3, 5),
    Case(&[END | 4, 0x0000_0000], 3, 5),
];

const E01: u32 = EDGE | 1;

const E11: u32 = EDGE | 1 << 14 | 1;

const E12: u32 = EDGE | 1 << 14 | 2;

const LOOP1: u32 = LOOP | 1 << 14;

const LOOP2: u32 = LOOP | 2 << 14;

const FACT01: u32 = FACT | 1 << 14;

const FACT33: u32 = FACT | 3 << 21 | 3 << 14;

// Lists after the drum task's three blocks, with the place of the next word 10: kinds, ends and edges.
const EDGES: [Case; 18] = [
    // The kind is not due.
    Case(&[E01, BLOCK | 1], 1, 11),
    Case(&[E01, BACK], 1, 11),
    Case(&[LOOP1, E01], 1, 11),
    Case(&[E01, E11, LOOP1, BACK | 1, E12], 1, 14),
    Case(&[FACT01, E01], 1, 11),
    Case(&[FACT01, LOOP1], 1, 11),
    // The list ends early.
    Case(&[E01], 2, 11),
    Case(&[LOOP1], 2, 11),
    Case(&[E01, E11, LOOP1, BACK | 1], 2, 14),
    Case(&[FACT01], 2, 11),
    // Edges: no such block, repeated, into block 0, out of the last block.
    Case(&[EDGE | 3 << 14 | 1], 6, 10),
    Case(&[EDGE | 0x3FFF << 14 | 1], 6, 10),
    Case(&[EDGE | 3], 6, 10),
    Case(&[EDGE | 0x3FFF], 6, 10),
    Case(&[E01, E11, E01], 6, 12),
    Case(&[EDGE | 1 << 14], 6, 10),
    Case(&[EDGE | 2 << 14 | 1], 6, 10),
    Case(&[EDGE | 2 << 14 | 2], 6, 10),
];

// Loops and facts after the same blocks.
const LOOPS: [Case; 27] = [
    // No such header, a header used before.
    Case(&[LOOP | 3 << 14], 7, 10),
    Case(&[LOOP | 0x3FFF << 14], 7, 10),
    Case(&[E01, E11, LOOP1, BACK | 1, LOOP1], 7, 14),
    // BACK names no edge into the header, or is repeated.
    Case(&[E01, LOOP1, BACK | 1], 7, 12),
    Case(&[E01, E11, LOOP1, BACK | 2], 7, 13),
    Case(&[E01, E11, LOOP1, BACK | 3], 7, 13),
    Case(&[E01, E11, LOOP1, BACK | 0xFFF_FFFF], 7, 13),
    Case(&[E01, E11, LOOP1, BACK | 1, BACK | 1], 7, 14),
    Case(&[LOOP, BACK], 7, 11),
    // No BACK, found at the word after the loop.
    Case(&[E01, E11, LOOP1, END | 13], 7, 13),
    Case(&[E01, E11, LOOP1, FACT01], 7, 13),
    Case(&[E01, E11, E12, LOOP1, LOOP2], 7, 14),
    Case(&[LOOP, END | 11], 7, 11),
    // No entry edge, found there too.
    Case(&[E11, LOOP1, BACK | 1, END | 13], 7, 13),
    Case(&[E11, LOOP1, BACK | 1, FACT01], 7, 13),
    Case(&[E11, E12, LOOP1, BACK | 1, LOOP2], 7, 14),
    Case(&[E01, E11, LOOP1, BACK, BACK | 1, END | 15], 7, 15),
    // At one word the lower number comes first, and a fault of END before the word after it.
    Case(&[LOOP1, COST], 1, 11),
    Case(&[LOOP1, END | 10], 3, 11),
    Case(&[LOOP1, END | 11, END | 12], 7, 11),
    Case(&[LOOP1, FACT33], 7, 11),
    // Facts: no such block, or i = j.
    Case(&[FACT | 3 << 21], 8, 10),
    Case(&[FACT | 127 << 21], 8, 10),
    Case(&[FACT | 3 << 14], 8, 10),
    Case(&[FACT | 1 << 21 | 1 << 14], 8, 10),
    Case(&[FACT33], 8, 10),
    Case(&[FACT01, FACT | 127 << 14], 8, 11),
];

// Lists after the same blocks that are accepted.
const ACCEPTED: [&[u32]; 6] = [
    &[END | 10],
    &[E01, E11, E12, END | 13],
    // The last block is a header, with bound 0.
    &[E01, EDGE | 2, E12, LOOP2, BACK | 1, END | 15],
    // Two loops, the bound at its limit.
    &[
        E01,
        E11,
        E12,
        EDGE | 2,
        LOOP1 | 0x3FFF,
        BACK | 1,
        LOOP2,
        BACK | 1,
        END | 18,
    ],
    // Facts that repeat, with k at its limits.
    &[FACT01, FACT01 | 0x3FFF, FACT01, END | 13],
    &[E01, E11, LOOP1, BACK | 1, FACT | 2 << 21, END | 15],
];

fn joined(heap: Global, first: &[u32], rest: &[u32]) -> Result<Vec<u32>, Fail> {
    let mut list = first.to_vec(heap)?;
    list.extend_from_slice(rest)?;
    Ok(list)
}

fn all_refused(heap: Global, first: &[u32], cases: &[Case]) -> Result<(), Fail> {
    let mut room = drum_room(heap)?;
    for Case(rest, number, place) in cases {
        let list = joined(heap, first, rest)?;
        refused(&mut room, list.as_slice(), *number, *place)?;
    }
    Ok(())
}

fn all_accepted(heap: Global, first: &[u32], lists: &[&[u32]]) -> Result<(), Fail> {
    let mut room = SheetRoom::reserve(heap)?;
    for rest in lists {
        let list = joined(heap, first, rest)?;
        accepted(&mut room, list.as_slice())?;
    }
    Ok(())
}

#[test]
fn words_are_refused_at_their_place(rt: HostRuntime) -> Result<(), Fail> {
    all_refused(rt.alloc(), &[], &FIRST)?;
    all_refused(rt.alloc(), &TOP, &AFTER_BLOCK)
}

#[test]
fn items_are_refused_at_their_place(rt: HostRuntime) -> Result<(), Fail> {
    all_refused(rt.alloc(), &DRUM[0..10], &EDGES)?;
    all_refused(rt.alloc(), &DRUM[0..10], &LOOPS)
}

#[test]
fn fields_at_their_limits_are_accepted(rt: HostRuntime) -> Result<(), Fail> {
    all_accepted(
        rt.alloc(),
        &[HEAD | 1, BLOCK | 1, LBLOCK, COST],
        &[&[END | 4]],
    )?;
    all_accepted(rt.alloc(), &TOP, &[&[END | 4]])?;
    all_accepted(rt.alloc(), &DRUM[0..10], &ACCEPTED)
}
