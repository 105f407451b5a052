// The kinds of words, and lists of words that are built in code.
use std::alloc::AllocError;

// Kept: words are stated as they stand in a list; made from `Kind` they would be made by the code under test.
pub const HEAD: u32 = 0x1000_0000;

pub const BLOCK: u32 = 0x2000_0000;

pub const LBLOCK: u32 = 0x3000_0000;

pub const COST: u32 = 0x4000_0000;

pub const EDGE: u32 = 0x5000_0000;

pub const LOOP: u32 = 0x6000_0000;

pub const BACK: u32 = 0x7000_0000;

pub const FACT: u32 = 0x8000_0000;

pub const END: u32 = 0xF000_0000;

pub fn edge(from: u32, to: u32) -> u32 {
    EDGE | from << 14 | to
}

// A block with an l-block in each of these sets, in this order.
pub fn block(list: &mut Vec<u32>, sets: &[u32]) -> Result<(), AllocError> {
    list.push(BLOCK | (sets.len() % 0x1000_0000) as u32)?;
    for set in sets {
        list.push(LBLOCK | *set << 20)?;
        list.push(COST)?;
    }
    Ok(())
}

// So many equal blocks.
pub fn blocks(list: &mut Vec<u32>, n: u32, sets: &[u32]) -> Result<(), AllocError> {
    for _ in 0..n {
        block(list, sets)?;
    }
    Ok(())
}

// END, with the number of words before it.
pub fn end(list: &mut Vec<u32>) -> Result<(), AllocError> {
    let count = (list.len() % 0x1000_0000) as u32;
    list.push(END | count)?;
    Ok(())
}
