// What can be wrong with a claim.
ghost use Rattle.std.specs.Prelude.{◌≡◌};
ghost use Rattle.claim.specs.Faults.{claim_refusal};
ghost use Rattle.claim.specs.declared.fault.ClaimFault.TheVariants.{Word};

use words::refusal::{Layer, Refusal, Refuse, WordFault};

// A fault of the word layer, whole; END where W or a pair is due, or HIGH where END is due, with the place of the word; a wrong HIGH, with
// its place; the first at-most row with a negative multiplier; the first column that is too low; a claim that is too low.
#[derive(Clone, Copy, PartialEq, Eq, Debug)]
pub enum ClaimFault {
    Word(WordFault),
    WrongPairs(usize),
    WrongSign(usize),
    NegativeMultiplier(usize),
    ColumnTooLow(usize),
    ClaimTooLow,
}

impl From<WordFault> for ClaimFault {
    ghost from_gives = { λ e r. r ≡ Word e };

    fn from(e: WordFault) -> ClaimFault {
        ClaimFault::Word(e)
    }
}

impl Refuse for ClaimFault {
    ghost means = { claim_refusal };

    fn refusal(&self) -> Refusal {
        let (number, place) = match *self {
            ClaimFault::Word(fault) => return fault.refusal(),
            ClaimFault::WrongPairs(place) => (10, place),
            ClaimFault::WrongSign(place) => (11, place),
            ClaimFault::NegativeMultiplier(row) => (12, row),
            ClaimFault::ColumnTooLow(column) => (13, column),
            ClaimFault::ClaimTooLow => (14, 0),
        };
        Refusal {
            number,
            place,
            layer: Layer::Claim,
        }
    }
}
