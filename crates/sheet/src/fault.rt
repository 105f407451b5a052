// What can be wrong with a sheet.
ghost use Rattle.std.specs.Prelude.{◌≡◌};
ghost use Rattle.sheet.specs.Faults.{sheet_refusal};
ghost use Rattle.sheet.specs.declared.fault.SheetFault.TheVariants.{Word};

use words::refusal::{Layer, Refusal, Refuse, WordFault};

// A fault of the word layer, whole; too many items; a wrong edge, loop or fact, each with the place of its word; and too many conflict
// edges, with the set that passes the limit.
#[derive(Clone, Copy, PartialEq, Eq, Debug)]
pub enum SheetFault {
    Word(WordFault),
    TooMany(usize),
    WrongEdge(usize),
    WrongLoop(usize),
    WrongFact(usize),
    TooManyConflicts(usize),
}

impl From<WordFault> for SheetFault {
    ghost from_gives = { λ e r. r ≡ Word e };

    fn from(e: WordFault) -> SheetFault {
        SheetFault::Word(e)
    }
}

impl Refuse for SheetFault {
    ghost means = { sheet_refusal };

    fn refusal(&self) -> Refusal {
        let (number, place) = match *self {
            SheetFault::Word(fault) => return fault.refusal(),
            SheetFault::TooMany(place) => (5, place),
            SheetFault::WrongEdge(place) => (6, place),
            SheetFault::WrongLoop(place) => (7, place),
            SheetFault::WrongFact(place) => (8, place),
            SheetFault::TooManyConflicts(set) => (9, set),
        };
        Refusal {
            number,
            place,
            layer: Layer::Sheet,
        }
    }
}
