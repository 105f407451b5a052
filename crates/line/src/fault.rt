// What can be wrong with a line.
ghost use Rattle.line.specs.Fault.{line_refusal};

use words::refusal::{Layer, Refusal, Refuse};

// The output is too short for a line of so many bytes.
#[derive(Clone, Copy, PartialEq, Eq, Debug)]
pub enum LineFault {
    TooShort(usize),
}

impl Refuse for LineFault {
    ghost means = { line_refusal };

    fn refusal(&self) -> Refusal {
        let LineFault::TooShort(needed) = *self;
        Refusal {
            number: 21,
            place: needed,
            layer: Layer::Line,
        }
    }
}
