ghost use Rattle.std.specs.Prelude.{◌≡◌, ℕ, ◌+◌, ◌<◌, ◌≤◌, true, length};
ghost use Rattle.std.specs.List.{ContainsAt as Has};
ghost use Rattle.sheet.specs.Walk.{edge};
ghost use Rattle.sheet.specs.Conflict.{at, Arrow};
ghost use Rattle.sheet.specs.Graph.{first_of};
ghost use Rattle.sheet.specs.Traversal.{sheet_of, Going, Sees, On, saw, Starts, Reached};

use crate::bounded::BoundedVec;
use crate::limits::MOST_LBLOCKS;
use crate::parts::Node;
use crate::traversal::graph::Graph;
use std::alloc::{AllocError, Global};

// The node that a traversal starts from, and the set that ends its paths.
#[derive(Clone, Copy)]
pub struct Source {
    pub set: usize,
    pub from: Node,
}

// A traversal of the fetch graph from one node, that does not go on after an l-block of the set. It flags the l-blocks that it saw, and END;
// the l-blocks that it goes on from it queues.
#[derive(Drop)]
pub struct Reach {
    pub source: Source,
    // Kept: nothing is allocated while a sheet is read, so both lists are in reserved memory and l-blocks go by number.
    pub seen: BoundedVec<bool, MOST_LBLOCKS>,
    pub ended: bool,
    pub queue: BoundedVec<usize, MOST_LBLOCKS>,
}

// Kept: `Going`, `Sees`, `On` and `Starts` tie a traversal or its source to a graph that it cannot hold: its memory is reserved once, for many graphs.
impl Reach {
    pub(crate) fn reserve(heap: Global) -> Result<Reach, AllocError> {
        Ok(Reach {
            source: Source {
                set: 0,
                from: Node::Start,
            },
            seen: BoundedVec::reserve(heap)?,
            ended: false,
            queue: BoundedVec::reserve(heap)?,
        })
    }

    // Sees an l-block.
    fn visit(&mut self, g: &Graph, k: usize)
        requires going { Going (sheet_of g.now) self.old }
        requires known { k < length g.now.lblocks.now }
        requires leads { Sees (sheet_of g.now) self.old (at k) }
        ensures on { On (sheet_of g.now) self.old self.new }
        ensures saw { saw self.new (at k) ≡ true }
    {
        if self.seen.as_slice()[k] {
            return;
        }
        self.seen.set(k, true);
        if g.lblocks[k].set != self.source.set {
            self.queue.push(k);
        }
    }

    // Sees the first l-block of each block that an edge leads to from block b.
    fn follow(&mut self, g: &Graph, b: usize)
        requires going { Going (sheet_of g.now) self.old }
        requires known { b < length g.now.blocks.now }
        requires leads { (t : ℕ) → Has g.now.edges.now (edge b t) → Sees (sheet_of g.now) self.old (at (first_of g.now.blocks.now t)) }
        ensures on { On (sheet_of g.now) self.old self.new }
        ensures saw { (t : ℕ) → Has g.now.edges.now (edge b t) → saw self.new (at (first_of g.now.blocks.now t)) ≡ true }
    {
        let mut next = g.latest[b];
        while let Some(e) = next {
            self.visit(g, g.blocks[g.edges[e].to].first);
            next = g.before[e];
        }
    }

    // Sees each node that an arrow leads to from l-block x.
    fn spread(&mut self, g: &Graph, x: usize)
        requires going { Going (sheet_of g.now) self.old }
        requires known { x < length g.now.lblocks.now }
        requires leads { (y : Node) → Arrow (sheet_of g.now) (at x) y → Sees (sheet_of g.now) self.old y }
        ensures on { On (sheet_of g.now) self.old self.new }
        ensures saw { (y : Node) → Arrow (sheet_of g.now) (at x) y → saw self.new y ≡ true }
    {
        let b = g.lblocks[x].block;
        if x + 1 < g.blocks[b].first + g.blocks[b].lblocks {
            self.visit(g, x + 1);
            return;
        }
        self.follow(g, b);
        if b + 1 == g.blocks.len() {
            self.ended = true;
        }
    }

    // Makes ready for a traversal.
    fn reset(&mut self, g: &Graph, source: Source)
        ensures going { Going (sheet_of g.now) self.new }
        ensures source { self.new.source ≡ source }
    {
        self.source = source;
        self.queue.clear();
        self.seen.refill(g.lblocks.len(), false);
        self.ended = false;
    }

    // Sees each node that an arrow leads to from the source.
    fn begin(&mut self, g: &Graph, source: Source)
        requires starts { Starts (sheet_of g.now) source.from }
        ensures going { Going (sheet_of g.now) self.new }
        ensures source { self.new.source ≡ source }
        ensures saw { (y : Node) → Arrow (sheet_of g.now) source.from y → saw self.new y ≡ true }
    {
        self.reset(g, source);
        match source.from {
            Node::Start => self.visit(g, g.blocks[0].first),
            Node::At(x) => self.spread(g, x),
            Node::End => (),
        }
    }

    // Sees exactly the nodes that a path leads to from the source with no l-block of the set strictly inside.
    pub(crate) fn run(&mut self, g: &Graph, source: Source)
        requires starts { Starts (sheet_of g.now) source.from }
        ensures { Reached (sheet_of g.now) source self.new }
    {
        self.begin(g, source);
        // Kept: the queue grows while it is read, so no iterator can go over it.
        let mut head = 0;
        while let Some(&x) = self.queue.as_slice().get(head) {
            self.spread(g, x);
            head += 1;
        }
    }
}
