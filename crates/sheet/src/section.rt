// Which part of a sheet is being read.
ghost use Rattle.std.specs.Prelude.{◌≡◌};
ghost use Rattle.words.specs.Words.{one_of};
ghost use Rattle.sheet.specs.Sections.{due_in, section_past_lblock};

use words::word::Kind;

// Before HEAD; after it; in a block that lacks so many l-blocks; after a whole block; after an edge; in a loop; after a fact.
#[derive(Clone, Copy, PartialEq, Eq, Debug)]
pub enum Section {
    Head,
    First,
    LBlocks(usize),
    Blocks,
    Edges,
    Loop { number: usize, header: usize },
    Facts,
}

impl Section {
    // Whether a word of this kind is due here.
    pub(crate) fn due(self, kind: Kind) -> bool
        ensures { result ≡ one_of kind (due_in self) }
    {
        match self {
            Section::Head => kind == Kind::Head,
            Section::First => kind == Kind::Block,
            Section::LBlocks(_) => kind == Kind::LBlock,
            Section::Blocks => matches!(
                kind,
                Kind::Block | Kind::Edge | Kind::Loop | Kind::Fact | Kind::End
            ),
            Section::Edges => matches!(kind, Kind::Edge | Kind::Loop | Kind::Fact | Kind::End),
            Section::Loop { .. } => matches!(
                kind,
                Kind::Back | Kind::Loop | Kind::Fact | Kind::End
            ),
            Section::Facts => matches!(kind, Kind::Fact | Kind::End),
        }
    }

    // The section after an l-block of a block that lacked so many.
    pub(crate) fn past_lblock(lacking: usize) -> Section
        ensures { result ≡ section_past_lblock lacking }
    {
        if lacking > 1 {
            Section::LBlocks(lacking - 1)
        } else {
            Section::Blocks
        }
    }
}
