// The lines of the program.
ghost use Rattle.std.specs.Prelude.{◌≡◌, ℕ, ◌≤◌, List, length};
ghost use Rattle.line.specs.Fields.{word_text};
ghost use Rattle.line.specs.Lines.{sheet_text, accepted_text, refusal_text, item_text, layer_text, answer_text};
ghost use Rattle.line.specs.Written.{Written};

use crate::fault::LineFault;
use crate::field::{Field, Word};
use crate::layout::Layout;
use words::refusal::{Layer, Refusal, Refuse};

// No line has more bytes.
pub const MOST_LINE: usize = 256;

// How many there are of each part of a sheet.
#[derive(Clone, Copy, PartialEq, Eq, Debug)]
pub struct SheetNumbers {
    pub blocks: usize,
    pub edges: usize,
    pub lblocks: usize,
    pub rows: usize,
    pub columns: usize,
}

// What was refused.
#[derive(Clone, Copy, PartialEq, Eq, Debug)]
pub enum Item {
    Sheet,
    Claim,
    Step,
    Finish,
    Stream,
}

// A certificate is accepted, with the cycles that it claims.
#[derive(Clone, Copy, PartialEq, Eq, Debug)]
pub struct Accepted {
    pub cycles: u64,
}

// An item is refused.
#[derive(Clone, Copy, PartialEq, Eq, Debug)]
pub struct Refused {
    pub item: Item,
    pub refusal: Refusal,
}

impl Refused {
    pub fn new<F: Refuse>(item: Item, fault: &F) -> Refused
        ensures item { result.item ≡ item }
        ensures refusal { result.refusal ≡ F.means fault.now }
    {
        Refused {
            item,
            refusal: fault.refusal(),
        }
    }
}

// A line of the program.
pub trait Line {
    ghost text: { Self → List ℕ };

    // Writes the line from `at` on, if `out` has room for it, and answers the place after it.
    fn write(&self, out: &mut [u8], at: usize) -> Result<usize, LineFault>
        ensures written { Written out.old at (text self.now) result out.new }
        ensures bound { length (text self.now) ≤ MOST_LINE };
}

// `sheet blocks B edges E lblocks L rows R columns C`
impl Line for SheetNumbers {
    ghost text = { sheet_text };

    fn write(&self, out: &mut [u8], at: usize) -> Result<usize, LineFault> {
        let fields = [
            Field::Word(Word::Blocks),
            Field::Number(self.blocks as u64),
            Field::Word(Word::Edges),
            Field::Number(self.edges as u64),
            Field::Word(Word::LBlocks),
            Field::Number(self.lblocks as u64),
            Field::Word(Word::Rows),
            Field::Number(self.rows as u64),
            Field::Word(Word::Columns),
            Field::Number(self.columns as u64),
        ];
        let line = Layout {
            head: Word::Sheet,
            fields: &fields,
        };
        line.write(out, at)
    }
}

// `accepted W`
impl Line for Accepted {
    ghost text = { λ line. accepted_text line.cycles };

    fn write(&self, out: &mut [u8], at: usize) -> Result<usize, LineFault> {
        let line = Layout {
            head: Word::Accepted,
            fields: &[Field::Number(self.cycles)],
        };
        line.write(out, at)
    }
}

// `ITEM refused NUMBER at PLACE in LAYER`
impl Line for Refused {
    ghost text = { λ line. refusal_text line.item line.refusal };

    fn write(&self, out: &mut [u8], at: usize) -> Result<usize, LineFault> {
        let fields = [
            Field::Word(Word::Refused),
            Field::Number(self.refusal.number as u64),
            Field::Word(Word::At),
            Field::Number(self.refusal.place as u64),
            Field::Word(Word::In),
            Field::Word(self.refusal.layer.into()),
        ];
        let line = Layout {
            head: self.item.into(),
            fields: &fields,
        };
        line.write(out, at)
    }
}

// An answer's line: that of the value, or that of the refusal.
impl<A: Line, R: Line> Line for Result<A, R> {
    ghost text = { answer_text A.text R.text };

    fn write(&self, out: &mut [u8], at: usize) -> Result<usize, LineFault> {
        match self {
            Ok(answer) => answer.write(out, at),
            Err(refusal) => refusal.write(out, at),
        }
    }
}

impl From<Item> for Word {
    ghost from_gives = { λ item word. word_text word ≡ item_text item };

    fn from(item: Item) -> Word {
        match item {
            Item::Sheet => Word::Sheet,
            Item::Claim => Word::Claim,
            Item::Step => Word::Step,
            Item::Finish => Word::Finish,
            Item::Stream => Word::Stream,
        }
    }
}

impl From<Layer> for Word {
    ghost from_gives = { λ layer word. word_text word ≡ layer_text layer };

    fn from(layer: Layer) -> Word {
        match layer {
            Layer::Words => Word::Words,
            Layer::Sheet => Word::Sheet,
            Layer::Claim => Word::Claim,
            Layer::Run => Word::Run,
            Layer::Line => Word::Line,
        }
    }
}

#[cfg(test)]
mod tests {
    use super::*;
    use std::test::Fail;
    use words::refusal::WordFault;

    const DRUM: SheetNumbers = SheetNumbers {
        blocks: 3,
        edges: 3,
        lblocks: 3,
        rows: 18,
        columns: 15,
    };

    #[test]
    fn sheet_lines(rt: HostRuntime) -> Result<(), Fail> {
        let mut out = [b'.'; 55];
        assert_eq!(rt; DRUM.write(&mut out, 1)?, 53);
        assert!(rt; out[..] == b".sheet blocks 3 edges 3 lblocks 3 rows 18 columns 15\n.."[..]);
        let ends = SheetNumbers {
            blocks: 0,
            edges: usize::MAX,
            lblocks: 10,
            rows: 9,
            columns: 100,
        };
        let mut out = [b'.'; 72];
        assert_eq!(rt; ends.write(&mut out, 0)?, 72);
        assert!(rt;
            out[..]
                == b"sheet blocks 0 edges 18446744073709551615 lblocks 10 rows 9 columns 100\n"[..]
        );
        Ok(())
    }

    #[test]
    fn refusal_lines(rt: HostRuntime) -> Result<(), Fail> {
        let mut out = [b'.'; 64];
        let sheet = Refused::new(Item::Sheet, &WordFault::EndsEarly(0));
        let stream = Refused::new(Item::Stream, &LineFault::TooShort(52));
        let at = sheet.write(&mut out, 0)?;
        let at = stream.write(&mut out, at)?;
        assert_eq!(rt; at, 62);
        assert!(rt;
            out[..] == b"sheet refused 2 at 0 in words\nstream refused 21 at 52 in line\n.."[..]
        );
        Ok(())
    }

    #[test]
    fn accepted_lines(rt: HostRuntime) -> Result<(), Fail> {
        let mut out = [b'.'; 43];
        let at = Accepted { cycles: 45 }.write(&mut out, 0)?;
        let most = Accepted { cycles: u64::MAX };
        assert_eq!(rt; most.write(&mut out, at)?, 42);
        assert!(rt; out[..] == b"accepted 45\naccepted 18446744073709551615\n."[..]);
        Ok(())
    }

    #[test]
    fn too_short(rt: HostRuntime) {
        let mut out = [b'.'; 52];
        assert_eq!(rt; DRUM.write(&mut out, 1), Err(LineFault::TooShort(52)));
        assert_eq!(rt;
            DRUM.write(&mut out, usize::MAX),
            Err(LineFault::TooShort(52))
        );
        assert!(rt; out[..] == [b'.'; 52][..]);
    }
}
