// Lists what traversals find. Where there would be more than 4,096 conflict edges, the fault names the set with which they pass them.
ghost use Rattle.std.specs.Prelude.{◌≡◌, ◌<◌, [], ◌∷◌, length, nat_eq};
ghost use Rattle.words.specs.Lists.{any};
ghost use Rattle.sheet.specs.ConflictList.{conflicts_from, conflicts_of};
ghost use Rattle.sheet.specs.Reads.{Found};
ghost use Rattle.sheet.specs.Traversal.{sheet_of, Starts, Reached, HasFlag, Added, saw, seen_edge};

use crate::fault::SheetFault;
use crate::parts::{Conflict, ConflictList, LBlock, Node};
use crate::traversal::graph::Graph;
use crate::traversal::reach::{Reach, Source};

impl Reach {
    // Whether the traversal saw a node.
    fn saw(&self, v: Node) -> bool
        requires { HasFlag self.now v }
        ensures { result ≡ saw self.now v }
    {
        match v {
            Node::Start => false,
            Node::At(k) => self.seen.as_slice()[k],
            Node::End => self.ended,
        }
    }

    // Lists the conflict edge to a node, if the traversal saw it.
    fn list_to(&self, to: Node, out: &mut ConflictList) -> Result<(), SheetFault>
        requires { HasFlag self.now to }
        ensures { Added self.now.source.set out.old.list.items (seen_edge self.now to) result out.new.list.items }
    {
        if self.saw(to) {
            put(
                out,
                Conflict {
                    set: self.source.set,
                    from: self.source.from,
                    to,
                },
            )?;
        }
        Ok(())
    }

    // Lists the conflict edges from the source.
    fn list(&self, g: &Graph, out: &mut ConflictList) -> Result<(), SheetFault>
        requires reached { Reached (sheet_of g.now) self.now.source self.now }
        ensures { Added self.now.source.set out.old.list.items (conflicts_from (sheet_of g.now) self.now.source.set self.now.source.from) result out.new.list.items }
    {
        for (v, b) in g.lblocks.iter().enumerate() {
            if b.set == self.source.set {
                self.list_to(Node::At(v), out)?;
            }
        }
        self.list_to(Node::End, out)
    }

    // Lists the conflict edges from a source.
    fn list_from(
        &mut self,
        g: &Graph,
        source: Source,
        out: &mut ConflictList,
    ) -> Result<(), SheetFault>
        requires starts { Starts (sheet_of g.now) source.from }
        ensures { Added source.set out.old.list.items (conflicts_from (sheet_of g.now) source.set source.from) result out.new.list.items }
    {
        self.run(g, source);
        self.list(g, out)
    }

    // Lists the conflict edges of a set, from START and from its l-blocks.
    fn list_set(&mut self, g: &Graph, set: usize, out: &mut ConflictList) -> Result<(), SheetFault>
        ensures { Added set out.old.list.items (conflicts_of (sheet_of g.now) set) result out.new.list.items }
    {
        let from = Node::Start;
        self.list_from(g, Source { set, from }, out)?;
        for (v, b) in g.lblocks.iter().enumerate() {
            if b.set == set {
                let from = Node::At(v);
                self.list_from(g, Source { set, from }, out)?;
            }
        }
        Ok(())
    }

    // Lists the conflict edges of all used sets.
    pub(crate) fn list_all(&mut self, g: &Graph, out: &mut ConflictList) -> Result<(), SheetFault>
        ensures { Found (sheet_of g.now) result out.new.list.items }
    {
        out.clear();
        // Kept: a set is a number and no place in a list.
        for set in 0..g.sets {
            if is_used(g.lblocks, set) {
                self.list_set(g, set, out)?;
            }
        }
        Ok(())
    }
}

// Whether an l-block has the set.
pub(crate) fn is_used(lblocks: &[LBlock], set: usize) -> bool
    ensures { result ≡ any (λ b. nat_eq b.set set) lblocks.now }
{
    lblocks.iter().any(|b| b.set == set)
}

// One conflict edge more, unless there are as many as may be.
fn put(out: &mut ConflictList, c: Conflict) -> Result<(), SheetFault>
    ensures { Added c.set out.old.list.items (c ∷ []) result out.new.list.items }
{
    if out.is_full() {
        return Err(SheetFault::TooManyConflicts(c.set));
    }
    out.push(c);
    Ok(())
}
