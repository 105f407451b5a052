// The most items that a sheet takes, and one more.
use crate::list::*;
use crate::outcome::{accepted, drum_room, refused};
use sheet::room::SheetRoom;
use std::alloc::AllocError;
use std::test::Fail;

// Three edges into each of the blocks 1 to 32: from block 0, from itself and from block 33.
fn loop_edges(list: &mut Vec<u32>) -> Result<(), AllocError> {
    for header in 1..33 {
        list.push(edge(0, header))?;
        list.push(edge(header, header))?;
        list.push(edge(33, header))?;
    }
    Ok(())
}

// 416 edges from the blocks 40 to 43.
fn other_edges(list: &mut Vec<u32>) -> Result<(), AllocError> {
    for i in 0..416 {
        list.push(edge(40 + i / 127, 1 + i % 127))?;
    }
    Ok(())
}

// Loops of these headers, each with two back edges.
fn loops(list: &mut Vec<u32>, headers: std::ops::Range<u32>) -> Result<(), AllocError> {
    for header in headers {
        list.push(LOOP | header << 14)?;
        list.push(BACK | header)?;
        list.push(BACK | 33)?;
    }
    Ok(())
}

fn facts(list: &mut Vec<u32>) -> Result<(), AllocError> {
    for k in 0..32 {
        list.push(FACT | 1 << 14 | k)?;
    }
    Ok(())
}

// The list with each of these words after it, which is refused with the number given, at that word.
// Kept: tests state the number that is printed, which an enum of faults would leave to the code under test.
fn all_refused_next(
    room: &mut SheetRoom,
    list: &mut Vec<u32>,
    cases: &[(u32, u8)],
) -> Result<(), Fail> {
    let place = list.len();
    for (word, number) in cases {
        list.push(*word)?;
        refused(room, list.as_slice(), *number, place)?;
        list.truncate(place);
    }
    Ok(())
}

// 128 blocks and 512 edges; one more of either is refused, with a lower number if it has another fault of a lower number.
fn most_edges(room: &mut SheetRoom, list: &mut Vec<u32>) -> Result<(), Fail> {
    blocks(list, 128, &[0, 1, 2, 3])?;
    all_refused_next(room, list, &[(BLOCK, 4), (BLOCK | 1, 5)])?;
    loop_edges(list)?;
    other_edges(list)?;
    all_refused_next(room, list, &[(EDGE | 126 << 14 | 1, 5), (EDGE, 5)])
}

// 32 loops, 64 BACK words and 32 facts. The last loop is first tried without BACK.
fn most_loops(room: &mut SheetRoom, list: &mut Vec<u32>) -> Result<(), Fail> {
    loops(list, 1..32)?;
    list.push(LOOP | 32 << 14)?;
    all_refused_next(room, list, &[(FACT, 7), (LOOP | 33 << 14, 5)])?;
    list.push(BACK | 32)?;
    list.push(BACK | 33)?;
    all_refused_next(
        room,
        list,
        &[(BACK, 5), (BACK | 33, 5), (LOOP | 33 << 14, 5)],
    )?;
    facts(list)?;
    all_refused_next(room, list, &[(FACT | 1 << 14, 5), (FACT, 5)])
}

#[test]
fn the_largest_sheet(rt: HostRuntime) -> Result<(), Fail> {
    let mut room = drum_room(rt.alloc())?;
    let mut list = [HEAD | 4].to_vec(rt.alloc())?;
    most_edges(&mut room, &mut list)?;
    most_loops(&mut room, &mut list)?;
    end(&mut list)?;
    assert_eq!(rt; list.len(), 1794);
    accepted(&mut room, list.as_slice())
}

// 512 l-blocks in blocks of 16, and one more.
#[test]
fn one_lblock_too_many(rt: HostRuntime) -> Result<(), Fail> {
    let mut room = drum_room(rt.alloc())?;
    let mut list = [HEAD | 1].to_vec(rt.alloc())?;
    blocks(&mut list, 32, &[0; 16])?;
    list.push(BLOCK | 1)?;
    all_refused_next(&mut room, &mut list, &[(LBLOCK | 1 << 20, 4), (LBLOCK, 5)])?;
    list.pop();
    end(&mut list)?;
    accepted(&mut room, list.as_slice())
}
