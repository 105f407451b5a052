// A word at its place in the list.
ghost use Rattle.words.specs.Reads.{Reads};
ghost use Rattle.sheet.specs.Placed.{TakesPlaced};

use words::reader::Reader;
use words::refusal::WordFault;
use words::word::{Kind, Payload};

#[derive(Clone, Copy, PartialEq, Eq, Debug)]
pub(crate) struct PlacedWord {
    pub(crate) kind: Kind,
    pub(crate) payload: Payload,
    pub(crate) at: usize,
}

impl PlacedWord {
    // The next word, or that the list has ended.
    pub(crate) fn next(reader: &mut Reader) -> Result<PlacedWord, WordFault>
        ensures { Reads TakesPlaced reader.old result reader.new }
    {
        let at = reader.place();
        let word = reader.next()?;
        Ok(PlacedWord {
            kind: word.kind,
            payload: word.payload,
            at,
        })
    }
}
