// The marker: memory for a sheet and its words, and the lines that are printed.
ghost use Rattle.std.specs.Prelude.{◌≡◌, IfOk, MatchResult};
ghost use Rattle.words.specs.Words.{accepted, refused};
ghost use Rattle.line.specs.Written.{Written};
ghost use Rattle.line.specs.declared.lines.Item.TheVariants.{Sheet as SheetItem};
ghost use Rattle.sheet.specs.ReadSheet.{read_sheet};
ghost use Rattle.sheet.specs.View.{view, blank};
ghost use Rattle.marker.specs.Input.{first_list};
ghost use Rattle.marker.specs.Report.{numbers_of, sheet_report, report, HeldAfter};
ghost use Rattle.marker.specs.Stream.{StepByStep};
ghost use Rattle.marker.specs.Text.{Printed};

use crate::input::{MOST_WORDS, WordList};
use crate::text::append;
use line::fault::LineFault;
use line::lines::{Item, Line, Refused, SheetNumbers};
use sheet::room::SheetRoom;
use sheet::timing::Sheet;
use std::alloc::{AllocError, Global};

// The bytes of the longest list.
pub const MOST_BYTES: usize = 4 * MOST_WORDS;

// All the memory that marking takes.
#[derive(Drop)]
pub struct Marker {
    pub(crate) room: SheetRoom,
    pub(crate) words: WordList,
}

// How many there are of each part of a sheet.
pub fn numbers(sheet: &Sheet) -> SheetNumbers
    ensures { result ≡ numbers_of (view sheet.now) }
{
    SheetNumbers {
        blocks: sheet.blocks().len(),
        edges: sheet.edges().len(),
        lblocks: sheet.lblocks().len(),
        rows: sheet.rows(),
        columns: sheet.columns(),
    }
}

// Kept: `held` ties the sheets before and after a call, which no invariant of one value can say.
impl Marker {
    // Reserves the memory. The sheet is the blank one.
    pub fn reserve(heap: Global) -> Result<Marker, AllocError>
        ensures { IfOk result (λ m. view m.room.sheet ≡ blank) }
    {
        Ok(Marker {
            room: SheetRoom::reserve(heap)?,
            words: WordList::reserve(heap)?,
        })
    }

    // Reads the sheet that the input begins with, and answers its line, or that of its refusal.
    fn read(&mut self, input: &[u8]) -> Result<SheetNumbers, Refused>
        ensures list { self.new.words.words.items ≡ first_list input.now }
        ensures answer { MatchResult result
            (λ n. (read_sheet (first_list input.now) ≡ accepted (view self.new.room.sheet)) × (n ≡ numbers_of (view self.new.room.sheet)))
            (λ r. (read_sheet (first_list input.now) ≡ refused r.refusal) × (r.item ≡ SheetItem)) }
        ensures held { HeldAfter (first_list input.now) self.old.room.sheet self.new.room.sheet }
    {
        self.words.take(input);
        self.room
            .read(self.words.as_slice())
            .map_err(|fault| Refused::new(Item::Sheet, &fault))?;
        Ok(numbers(self.room.sheet()))
    }

    // Reads the sheet that the input begins with, and writes its line, or that of its refusal, at a place of the output.
    pub fn sheet(&mut self, input: &[u8], out: &mut [u8], at: usize) -> Result<usize, LineFault>
        ensures written { Written out.old at (sheet_report input.now) result out.new }
        ensures held { HeldAfter (first_list input.now) self.old.room.sheet self.new.room.sheet }
    {
        self.read(input).write(out, at)
    }

    // Appends the lines that are printed for the input.
    #[tactic(auto, using(crate::proofs::Going::step_by_step))]
    pub fn mark(&mut self, input: &[u8], text: &mut Vec<u8>) -> Result<(), AllocError>
        ensures printed { Printed text.old.items (report input.now) result text.new.items }
        ensures held { HeldAfter (first_list input.now) self.old.room.sheet self.new.room.sheet }
        ensures laws { StepByStep }
    {
        let answer = self.read(input);
        append(text, &answer)?;
        if answer.is_err() {
            return Ok(());
        }
        let start = self.words.len();
        self.stream(input, start, text)
    }
}

// Inputs that are no sheet, and the line of each.
#[cfg(test)]
const NO_SHEETS: [(&[u8], &[u8]); 5] = [
    (b"", b"sheet refused 2 at 0 in words\n"),
    (b"\x10", b"sheet refused 2 at 0 in words\n"),
    (b"\x10\x00\x00", b"sheet refused 2 at 0 in words\n"),
    (b"\xff\xff\xff\xff", b"sheet refused 1 at 0 in words\n"),
    (b"\x10\x00\x00\x02\x20", b"sheet refused 2 at 1 in words\n"),
];

#[cfg(test)]
mod mark_tests {
    use super::*;
    use std::test::Fail;

    // Whether these lines are printed for the input.
    // Kept: the two helpers try different calls.
    fn prints(marker: &mut Marker, heap: Global, input: &[u8], lines: &[u8]) -> bool {
        let mut text = Vec::new(heap);
        marker.mark(input, &mut text).is_ok() && text.as_slice() == lines
    }

    #[test]
    fn input_that_is_no_sheet(rt: HostRuntime) -> Result<(), Fail> {
        let heap = rt.alloc();
        let mut marker = Marker::reserve(heap)?;
        for (input, line) in NO_SHEETS {
            assert!(rt; prints(&mut marker, heap, input, line));
        }
        let long = vec![in heap; 16u8; 20000]?;
        assert!(rt; prints(&mut marker, heap, &long, b"sheet refused 4 at 0 in words\n"));
        Ok(())
    }

    // The drum task's sheet, then HIGH, END and a broken last word.
    const INPUT: &[u8] = b"\
        \x10\x00\x00\x02\x20\x00\x00\x01\x30\x00\x00\x01\x40\x00\x80\x08\
        \x20\x00\x00\x01\x30\x00\x00\x02\x40\x01\x00\x08\x20\x00\x00\x01\
        \x30\x10\x00\x01\x40\x00\xc0\x08\x50\x00\x00\x01\x50\x00\x40\x01\
        \x50\x00\x40\x02\x60\x00\x40\x03\x70\x00\x00\x01\xf0\x00\x00\x0f\
        \xa0\x00\x00\x00\xf0\x00\x00\x00\x90\x00";

    const LINES: &[u8] = b"\
        sheet blocks 3 edges 3 lblocks 3 rows 18 columns 15\n\
        stream refused 1 at 16 in words\n\
        stream refused 1 at 17 in words\n\
        stream refused 2 at 18 in words\n";

    #[test]
    fn after_the_sheet(rt: HostRuntime) -> Result<(), Fail> {
        let heap = rt.alloc();
        let mut marker = Marker::reserve(heap)?;
        assert!(rt; prints(&mut marker, heap, INPUT, LINES));
        Ok(())
    }
}

#[cfg(test)]
mod sheet_tests {
    use super::*;
    use line::lines::MOST_LINE;
    use std::test::Fail;

    // Whether this is what is printed for the input.
    // Kept: the two helpers try different calls.
    fn prints(marker: &mut Marker, input: &[u8], text: &[u8]) -> bool {
        // Kept: a line is written without allocating, into memory that is lent.
        let mut out = [0; MOST_LINE];
        let answer = marker.sheet(input, &mut out, 0);
        answer.is_ok_and(|end| out.get(..end) == Some(text))
    }

    #[test]
    fn input_that_is_no_sheet(rt: HostRuntime) -> Result<(), Fail> {
        let mut marker = Marker::reserve(rt.alloc())?;
        for (input, line) in NO_SHEETS {
            assert!(rt; prints(&mut marker, input, line));
        }
        let long = vec![in rt.alloc(); 16u8; 20000]?;
        assert!(rt; prints(&mut marker, &long, b"sheet refused 4 at 0 in words\n"));
        Ok(())
    }
}
