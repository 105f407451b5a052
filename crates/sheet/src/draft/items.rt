// One word after another: whether its kind is due, its checks, and the section that it leads to.
ghost use Rattle.std.specs.Prelude.{◌≡◌, ◌+◌, drop};
ghost use Rattle.sheet.specs.declared.section.Section.TheVariants.{LBlocks};
ghost use Rattle.words.specs.Reads.{Reads};
ghost use Rattle.sheet.specs.Sections.{Ready, Turn, Stepped, lacking_in};
ghost use Rattle.sheet.specs.Tried.{items_of};

use crate::draft::Draft;
use crate::draft::checks::demand;
use crate::draft::placed::PlacedWord;
use crate::fault::SheetFault;
use crate::section::Section;
use words::reader::Reader;
use words::refusal::WordFault;
use words::word::Kind;

// Kept: `Ready` ties the draft to the section that is being read, and a draft between two lists is in no section.
impl Draft {
    // A word that is not of an l-block.
    fn item(
        &mut self,
        section: Section,
        word: PlacedWord,
        reader: &Reader,
    ) -> Result<Option<Section>, SheetFault>
        requires ready { Ready section (items_of self.old) }
        requires outside { lacking_in section ≡ 0 }
        requires after { reader.now.at ≡ word.at + 1 }
        ensures { Turn section (items_of self.old) word.kind word.payload.0 word.at (drop (word.at + 1) reader.now.words.now) result (items_of self.new) }
    {
        demand(section.due(word.kind), WordFault::NotDue(word.at))?;
        // Kept: the kinds are a closed set, so a `match` says which step to run more plainly than closures would.
        match word.kind {
            Kind::Head => self.head_word(word),
            Kind::Block => self.block_word(word),
            Kind::Edge => self.edge_word(word),
            Kind::Loop => self.loop_word(section, word),
            Kind::Back => self.back_word(section, word),
            Kind::Fact => self.fact_word(section, word),
            Kind::End => self.end_word(section, word, reader),
            _ => Err(WordFault::NotDue(word.at).into()),
        }
    }

    // An l-block, which is two words.
    fn lblock(&mut self, lacking: usize, reader: &mut Reader) -> Result<Option<Section>, SheetFault>
        requires ready { Ready (LBlocks lacking) (items_of self.old) }
        ensures { Reads (Stepped (LBlocks lacking) (items_of self.old) (items_of self.new)) reader.old result reader.new }
    {
        let first = PlacedWord::next(reader)?;
        self.lblock_word(first)?;
        let second = PlacedWord::next(reader)?;
        self.cost_word(first.payload, second)?;
        Ok(Some(Section::past_lblock(lacking)))
    }

    // The next item, or the end of the sheet.
    pub(crate) fn step(
        &mut self,
        section: Section,
        reader: &mut Reader,
    ) -> Result<Option<Section>, SheetFault>
        requires ready { Ready section (items_of self.old) }
        ensures { Reads (Stepped section (items_of self.old) (items_of self.new)) reader.old result reader.new }
    {
        if let Section::LBlocks(lacking) = section {
            return self.lblock(lacking, reader);
        }
        let word = PlacedWord::next(reader)?;
        self.item(section, word, reader)
    }
}
