// What each word of a sheet must meet, and the item that it adds. The checks are tried in order, the lower number first.
ghost use Rattle.std.specs.Prelude.{◌≡◌, ◌+◌, ◌-◌, ◌<◌, true, false, [], ◌∷◌, length, drop, Some, None, Ok, Err};
ghost use Rattle.std.proofs.Math.Option.{none};
ghost use Rattle.words.specs.Words.{upper};
ghost use Rattle.sheet.specs.declared.section.Section.TheVariants.{First, LBlocks, Edges, Loop as InLoop, Facts};
ghost use Rattle.sheet.specs.Kinds.{HEAD, BLOCK, EDGE};
ghost use Rattle.sheet.specs.declared.limits.TheConstants.{MOST_LBLOCKS};
ghost use Rattle.sheet.specs.ReadSheet.{checks};
ghost use Rattle.sheet.specs.Drafts.{sheet_of, add_head, add_block, add_edge, add_loop, add_back, add_fact};
ghost use Rattle.sheet.specs.Tried.{Demanded, Added, Tried, items_of, header_of, number_in, pair_lblock, lblock_checks, cost_checks, loop_checks, back_checks, fact_checks, end_checks};

use crate::draft::Draft;
use crate::draft::placed::PlacedWord;
use crate::fault::SheetFault;
use crate::limits::{MOST_LBLOCKS_IN_BLOCK, MOST_SETS};
use crate::parts::{BackEdge, Block, Edge, Fact, LBlock, Loop};
use crate::section::Section;
use words::reader::Reader;
use words::refusal::WordFault;
use words::word::{Kind, Payload};

// Refuses with this fault unless the test holds.
pub(crate) fn demand<F: Drop>(holds: bool, fault: F) -> Result<(), F>
    ensures { Demanded holds fault result }
{
    if holds { Ok(()) } else { Err(fault) }
}

// Each word leads to a section, or to none after END.
impl Draft {
    pub(crate) fn head_word(&mut self, word: PlacedWord) -> Result<Option<Section>, SheetFault>
        ensures { Added (checks (sheet_of (items_of self.old)) none HEAD word.payload.0 word.at []) (add_head (items_of self.old) word.payload.0) (Some First) result (items_of self.new) }
    {
        let sets = word.payload.0 as usize;
        demand(
            (1..=MOST_SETS).contains(&sets),
            WordFault::OutOfLimit(word.at),
        )?;
        self.sets = sets;
        Ok(Some(Section::First))
    }

    pub(crate) fn block_word(&mut self, word: PlacedWord) -> Result<Option<Section>, SheetFault>
        ensures { Added (checks (sheet_of (items_of self.old)) none BLOCK word.payload.0 word.at []) (add_block (items_of self.old) word.payload.0) (Some (LBlocks word.payload.0)) result (items_of self.new) }
    {
        let lblocks = word.payload.0 as usize;
        demand(
            (1..=MOST_LBLOCKS_IN_BLOCK).contains(&lblocks),
            WordFault::OutOfLimit(word.at),
        )?;
        demand(!self.blocks.is_full(), SheetFault::TooMany(word.at))?;
        let first = self.lblocks.len();
        self.blocks.push(Block { first, lblocks });
        Ok(Some(Section::LBlocks(lblocks)))
    }

    pub(crate) fn edge_word(&mut self, word: PlacedWord) -> Result<Option<Section>, SheetFault>
        ensures { Added (checks (sheet_of (items_of self.old)) none EDGE word.payload.0 word.at []) (add_edge (items_of self.old) word.payload.0) (Some Edges) result (items_of self.new) }
    {
        let from = word.payload.upper() as usize;
        let to = word.payload.lower() as usize;
        let blocks = self.blocks.len();
        demand(!self.edges.is_full(), SheetFault::TooMany(word.at))?;
        demand(from < blocks, SheetFault::WrongEdge(word.at))?;
        demand(to < blocks, SheetFault::WrongEdge(word.at))?;
        demand(!self.has_edge(from, to), SheetFault::WrongEdge(word.at))?;
        demand(to != 0, SheetFault::WrongEdge(word.at))?;
        demand(from != blocks - 1, SheetFault::WrongEdge(word.at))?;
        self.edges.push(Edge { from, to });
        Ok(Some(Section::Edges))
    }

    pub(crate) fn loop_word(
        &mut self,
        section: Section,
        word: PlacedWord,
    ) -> Result<Option<Section>, SheetFault>
        ensures { Added (loop_checks section (items_of self.old) word.payload.0 word.at) (add_loop (items_of self.old) (header_of word.payload.0)) (Some (InLoop (length (items_of self.old).loops) (upper word.payload.0))) result (items_of self.new) }
    {
        let header = word.payload.upper() as usize;
        let number = self.loops.len();
        demand(!self.loops.is_full(), SheetFault::TooMany(word.at))?;
        demand(self.whole(section), SheetFault::WrongLoop(word.at))?;
        demand(header < self.blocks.len(), SheetFault::WrongLoop(word.at))?;
        demand(!self.has_header(header), SheetFault::WrongLoop(word.at))?;
        let bound = word.payload.lower();
        self.loops.push(Loop { header, bound });
        Ok(Some(Section::Loop { number, header }))
    }

    pub(crate) fn back_word(
        &mut self,
        section: Section,
        word: PlacedWord,
    ) -> Result<Option<Section>, SheetFault>
        ensures { Added (back_checks section (items_of self.old) word.payload.0 word.at) (add_back (items_of self.old) (number_in section) word.payload.0) (Some section) result (items_of self.new) }
    {
        let Section::Loop { number, header } = section else {
            return Err(WordFault::NotDue(word.at).into());
        };
        let source = word.payload.0 as usize;
        demand(!self.backs.is_full(), SheetFault::TooMany(word.at))?;
        demand(
            self.has_edge(source, header),
            SheetFault::WrongLoop(word.at),
        )?;
        demand(
            !self.has_back(number, source),
            SheetFault::WrongLoop(word.at),
        )?;
        self.backs.push(BackEdge {
            owner: number,
            source,
        });
        Ok(Some(section))
    }

    pub(crate) fn fact_word(
        &mut self,
        section: Section,
        word: PlacedWord,
    ) -> Result<Option<Section>, SheetFault>
        ensures { Added (fact_checks section (items_of self.old) word.payload.0 word.at) (add_fact (items_of self.old) word.payload.0) (Some Facts) result (items_of self.new) }
    {
        let i = word.payload.first_block() as usize;
        let j = word.payload.second_block() as usize;
        let blocks = self.blocks.len();
        demand(!self.facts.is_full(), SheetFault::TooMany(word.at))?;
        demand(self.whole(section), SheetFault::WrongLoop(word.at))?;
        demand(i < blocks, SheetFault::WrongFact(word.at))?;
        demand(j < blocks, SheetFault::WrongFact(word.at))?;
        demand(i != j, SheetFault::WrongFact(word.at))?;
        let k = word.payload.lower();
        self.facts.push(Fact { i, j, k });
        Ok(Some(Section::Facts))
    }

    // END, with the words after it yet to be read.
    pub(crate) fn end_word(
        &self,
        section: Section,
        word: PlacedWord,
        reader: &Reader,
    ) -> Result<Option<Section>, SheetFault>
        requires { reader.now.at ≡ word.at + 1 }
        ensures { Added (end_checks section (items_of self.now) word.payload.0 word.at (drop (word.at + 1) reader.now.words.now)) (items_of self.now) None result (items_of self.now) }
    {
        reader.counted(word.at, word.payload)?;
        demand(self.whole(section), SheetFault::WrongLoop(word.at))?;
        reader.ended()?;
        Ok(None)
    }

    // The first word of an l-block.
    pub(crate) fn lblock_word(&self, word: PlacedWord) -> Result<(), SheetFault>
        ensures { Tried (lblock_checks (items_of self.now) word.kind word.payload.0 word.at) result }
    {
        demand(word.kind == Kind::LBlock, WordFault::NotDue(word.at))?;
        demand(
            (word.payload.set() as usize) < self.sets,
            WordFault::OutOfLimit(word.at),
        )?;
        demand(!self.lblocks.is_full(), SheetFault::TooMany(word.at))
    }

    // Its second word.
    pub(crate) fn cost_word(&mut self, first: Payload, word: PlacedWord) -> Result<(), SheetFault>
        requires { length self.old.lblocks.list.items < MOST_LBLOCKS }
        ensures { Added (cost_checks word.kind word.at) (pair_lblock (items_of self.old) first.0 word.payload.0) tt result (items_of self.new) }
    {
        demand(word.kind == Kind::Cost, WordFault::NotDue(word.at))?;
        self.lblocks.push(LBlock {
            block: self.blocks.len().saturating_sub(1),
            set: first.set() as usize,
            tag: first.tag(),
            hit: word.payload.upper(),
            extra: word.payload.lower(),
        });
        Ok(())
    }
}
