// A certificate: a claim with a multiplier for each row, in the caller's words.

use crate::amount::Cycles;
use crate::scaled::Denominator;

// What was read: the claim W, the denominator D, and each row's pair of words, which are not copied.
#[derive(Clone, Copy)]
pub struct Certificate<'a> {
    pub claim: Cycles,
    pub scale: Denominator,
    pub pairs: &'a [[u32; 2]],
}

pub(crate) mod read;
