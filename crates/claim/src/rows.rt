// The multipliers of a sheet's rows.

// Each row's pair of words, by families of rows.
#[derive(Clone, Copy)]
pub struct Rows<'a> {
    pub ins: &'a [[u32; 2]],
    pub outs: &'a [[u32; 2]],
    pub loops: &'a [[u32; 2]],
    pub facts: &'a [[u32; 2]],
    pub arrivals: &'a [[u32; 2]],
    pub departures: &'a [[u32; 2]],
    pub sets: &'a [[u32; 2]],
    pub misses: &'a [[u32; 2]],
}

pub(crate) mod divide;
pub(crate) mod value;
