// What a refusal says, and what can be wrong with a word.
ghost use Rattle.std.specs.Prelude.{◌≡◌};
ghost use Rattle.words.specs.declared.refusal.Refusal.{Refusal as Said};
ghost use Rattle.words.specs.Faults.{word_refusal};

// The layer that found the fault.
#[derive(Clone, Copy, PartialEq, Eq, Debug)]
pub enum Layer {
    Words,
    Sheet,
    Claim,
    Run,
    Line,
}

// What is reported of a fault: its number, its place, and the layer that found it.
#[derive(Clone, Copy, PartialEq, Eq, Debug)]
pub struct Refusal {
    // Kept: what went wrong is an enum in each layer; this is the number that is printed for it.
    pub number: u8,
    pub place: usize,
    pub layer: Layer,
}

// A fault of some layer: what is reported of it.
pub trait Refuse {
    ghost means: { Self → Said };

    fn refusal(&self) -> Refusal
        ensures { result ≡ means self.now };
}

// What can be wrong with a word: a kind that is not due, a list that ends before END, an END with a wrong count or with a word after it,
// a field outside its limit. Each has the place in the list.
#[derive(Clone, Copy, PartialEq, Eq, Debug)]
pub enum WordFault {
    NotDue(usize),
    EndsEarly(usize),
    WrongEnd(usize),
    OutOfLimit(usize),
}

impl Refuse for WordFault {
    ghost means = { word_refusal };

    fn refusal(&self) -> Refusal {
        let (number, place) = match *self {
            WordFault::NotDue(place) => (1, place),
            WordFault::EndsEarly(place) => (2, place),
            WordFault::WrongEnd(place) => (3, place),
            WordFault::OutOfLimit(place) => (4, place),
        };
        Refusal {
            number,
            place,
            layer: Layer::Words,
        }
    }
}
