// Conflict edges: their limit, and those that a shortcut would miss.
use crate::list::*;
use crate::outcome::{accepted, drum_room, refused};
use sheet::parts::{Conflict, Node};
use sheet::room::SheetRoom;
use std::alloc::{AllocError, Global};
use std::test::Fail;

// Edges from block 1 to each leaf, the blocks from 2 to before the last, and back from each.
fn leaf_edges(list: &mut Vec<u32>, last: u32) -> Result<(), AllocError> {
    for leaf in 2..last {
        list.push(edge(1, leaf))?;
        list.push(edge(leaf, 1))?;
    }
    Ok(())
}

// Block 0 leads to block 1, which leads to each leaf and back, and to the last block. Every leaf has an l-block of set 0, some have
// a second one of set 2. Block 0 has so many l-blocks of set 1, block 1 and the last block have one.
// With n leaves set 0 has n * n conflict edges from leaf to leaf, n from START, n to END and START-END: (n + 1) * (n + 1). So has set 2.
// Set 1 has a chain from START to END, and block 1 comes again after a leaf: 4 and the number of l-blocks of block 0.
fn wheel(heap: Global, start: &[u32], plain: u32, double: u32) -> Result<Vec<u32>, AllocError> {
    let last = plain.saturating_add(double).saturating_add(2);
    let mut list = [HEAD | 3].to_vec(heap)?;
    block(&mut list, start)?;
    block(&mut list, &[1])?;
    blocks(&mut list, plain, &[0])?;
    blocks(&mut list, double, &[0, 2])?;
    block(&mut list, &[1])?;
    list.push(edge(0, 1))?;
    leaf_edges(&mut list, last)?;
    list.push(edge(1, last))?;
    end(&mut list)?;
    Ok(list)
}

// A wheel that has too many conflict edges, and the set that passes the limit.
struct Case {
    start: &'static [u32],
    plain: u32,
    double: u32,
    set: usize,
}

const PAST: [Case; 3] = [
    // 63 * 63 + 7 + 11 * 11 = 4097
    Case {
        start: &[1, 1, 1],
        plain: 52,
        double: 10,
        set: 2,
    },
    // 64 * 64 + 5 = 4101
    Case {
        start: &[1],
        plain: 63,
        double: 0,
        set: 1,
    },
    // 65 * 65 = 4225
    Case {
        start: &[1],
        plain: 64,
        double: 0,
        set: 0,
    },
];

#[test]
fn too_many_conflict_edges(rt: HostRuntime) -> Result<(), Fail> {
    let mut room = drum_room(rt.alloc())?;
    for Case {
        start,
        plain,
        double,
        set,
    } in &PAST {
        let mut list = wheel(rt.alloc(), start, *plain, *double)?;
        refused(&mut room, list.as_slice(), 9, *set)?;
        // All faults of words come before 9.
        let place = list.len();
        list.push(END)?;
        refused(&mut room, list.as_slice(), 3, place)?;
    }
    Ok(())
}

// 63 * 63 + 6 + 11 * 11 = 4096
#[test]
fn as_many_conflict_edges_as_may_be(rt: HostRuntime) -> Result<(), Fail> {
    let mut room = SheetRoom::reserve(rt.alloc())?;
    let list = wheel(rt.alloc(), &[1, 1], 52, 10)?;
    accepted(&mut room, list.as_slice())?;
    assert_eq!(rt; room.sheet().conflicts().len(), 4096);
    Ok(())
}

const IN_ONE_BLOCK: [Conflict; 3] = [
    Conflict {
        set: 0,
        from: Node::Start,
        to: Node::At(0),
    },
    Conflict {
        set: 0,
        from: Node::At(0),
        to: Node::At(1),
    },
    Conflict {
        set: 0,
        from: Node::At(1),
        to: Node::End,
    },
];

// The list is accepted, and the sheet has exactly these conflict edges, in this order.
fn has_conflicts(heap: Global, list: &[u32], expected: &[Conflict]) -> Result<(), Fail> {
    let mut room = SheetRoom::reserve(heap)?;
    accepted(&mut room, list)?;
    if room.sheet().conflicts() != expected {
        return Err(Fail::new("other conflict edges"));
    }
    Ok(())
}

// Looking from block to block only would miss the second conflict edge.
#[test]
fn two_lblocks_of_one_set_in_one_block(rt: HostRuntime) -> Result<(), Fail> {
    let list = [
        HEAD | 1,
        BLOCK | 2,
        LBLOCK | 1,
        COST,
        LBLOCK | 2,
        COST,
        END | 6,
    ];
    has_conflicts(rt.alloc(), &list, &IN_ONE_BLOCK)
}

const BESIDE_A_SET: [Conflict; 8] = [
    Conflict {
        set: 0,
        from: Node::Start,
        to: Node::At(0),
    },
    Conflict {
        set: 0,
        from: Node::At(0),
        to: Node::At(2),
    },
    Conflict {
        set: 0,
        from: Node::At(0),
        to: Node::At(3),
    },
    Conflict {
        set: 0,
        from: Node::At(2),
        to: Node::At(3),
    },
    Conflict {
        set: 0,
        from: Node::At(3),
        to: Node::End,
    },
    Conflict {
        set: 1,
        from: Node::Start,
        to: Node::At(1),
    },
    Conflict {
        set: 1,
        from: Node::Start,
        to: Node::End,
    },
    Conflict {
        set: 1,
        from: Node::At(1),
        to: Node::End,
    },
];

// Four blocks, and edges from block 0 to blocks 1 and 2 and from both to block 3. Only block 1 has an l-block of set 1.
const BRANCH: [u32; 18] = [
    HEAD | 2,
    BLOCK | 1,
    LBLOCK | 1,
    COST,
    BLOCK | 1,
    LBLOCK | 1 << 20,
    COST,
    BLOCK | 1,
    LBLOCK | 2,
    COST,
    BLOCK | 1,
    LBLOCK | 3,
    COST,
    EDGE | 1,
    EDGE | 2,
    EDGE | 1 << 14 | 3,
    EDGE | 2 << 14 | 3,
    END | 17,
];

// Without START-END every walk would have to go through block 1.
#[test]
fn a_set_that_a_walk_avoids_has_start_end(rt: HostRuntime) -> Result<(), Fail> {
    has_conflicts(rt.alloc(), &BRANCH, &BESIDE_A_SET)
}
