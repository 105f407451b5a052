// The drum task: its words, and what a sheet holds that was read from them.
use sheet::parts::{BackEdge, Block, Conflict, Edge, LBlock, Loop, Node};
use sheet::room::SheetRoom;
use sheet::timing::Sheet;
use std::test::Fail;

pub const DRUM: [u32; 16] = [
    0x10000002, 0x20000001, 0x30000001, 0x40008008, 0x20000001, 0x30000002, 0x40010008, 0x20000001,
    0x30100001, 0x4000C008, 0x50000001, 0x50004001, 0x50004002, 0x60004003, 0x70000001, 0xF000000F,
];

const BLOCKS: [Block; 3] = [
    Block {
        first: 0,
        lblocks: 1,
    },
    Block {
        first: 1,
        lblocks: 1,
    },
    Block {
        first: 2,
        lblocks: 1,
    },
];

const LBLOCKS: [LBlock; 3] = [
    LBlock {
        block: 0,
        set: 0,
        tag: 1,
        hit: 2,
        extra: 8,
    },
    LBlock {
        block: 1,
        set: 0,
        tag: 2,
        hit: 4,
        extra: 8,
    },
    LBlock {
        block: 2,
        set: 1,
        tag: 1,
        hit: 3,
        extra: 8,
    },
];

const EDGES: [Edge; 3] = [
    Edge { from: 0, to: 1 },
    Edge { from: 1, to: 1 },
    Edge { from: 1, to: 2 },
];

const LOOPS: [Loop; 1] = [Loop {
    header: 1,
    bound: 3,
}];

const BACK_EDGES: [BackEdge; 1] = [BackEdge {
    owner: 0,
    source: 1,
}];

const CONFLICTS: [Conflict; 6] = [
    Conflict {
        set: 0,
        from: Node::Start,
        to: Node::At(0),
    },
    Conflict {
        set: 0,
        from: Node::At(0),
        to: Node::At(1),
    },
    Conflict {
        set: 0,
        from: Node::At(1),
        to: Node::At(1),
    },
    Conflict {
        set: 0,
        from: Node::At(1),
        to: Node::End,
    },
    Conflict {
        set: 1,
        from: Node::Start,
        to: Node::At(2),
    },
    Conflict {
        set: 1,
        from: Node::At(2),
        to: Node::End,
    },
];

// Whether the sheet is the drum task's, in all its parts.
pub fn is_drum(sheet: &Sheet) -> bool {
    sheet.sets() == 2
        && sheet.blocks() == &BLOCKS[..]
        && sheet.lblocks() == &LBLOCKS[..]
        && sheet.edges() == &EDGES[..]
        && sheet.loops() == &LOOPS[..]
        && sheet.back_edges() == &BACK_EDGES[..]
        && sheet.facts().is_empty()
        && sheet.conflicts() == &CONFLICTS[..]
        && sheet.rows() == 18
        && sheet.columns() == 15
}

const BLANK_CONFLICTS: [Conflict; 2] = [
    Conflict {
        set: 0,
        from: Node::Start,
        to: Node::At(0),
    },
    Conflict {
        set: 0,
        from: Node::At(0),
        to: Node::End,
    },
];

const BLANK_BLOCK: [Block; 1] = [Block {
    first: 0,
    lblocks: 1,
}];

const BLANK_LBLOCK: [LBlock; 1] = [LBlock {
    block: 0,
    set: 0,
    tag: 0,
    hit: 0,
    extra: 0,
}];

fn is_blank(sheet: &Sheet) -> bool {
    sheet.sets() == 1
        && sheet.blocks() == &BLANK_BLOCK[..]
        && sheet.lblocks() == &BLANK_LBLOCK[..]
        && sheet.edges().is_empty()
        && sheet.loops().is_empty()
        && sheet.back_edges().is_empty()
        && sheet.facts().is_empty()
        && sheet.conflicts() == &BLANK_CONFLICTS[..]
        && sheet.rows() == 6
        && sheet.columns() == 4
}

#[test]
fn blank_sheet_and_drum(rt: HostRuntime) -> Result<(), Fail> {
    let mut room = SheetRoom::reserve(rt.alloc())?;
    assert!(rt; is_blank(room.sheet()));
    assert!(rt; room.read(&DRUM).is_ok());
    assert!(rt; is_drum(room.sheet()));
    Ok(())
}
