//! The nodes that a volume keeps of its tree.
ghost use Rattle.std.specs.Prelude.{◌≡◌, IfOk};
ghost use Rattle.node_cache.specs.Kept.{HoldsNothing};
ghost use Rattle.epoch.specs.declared.header.TreeEntry.{TreeEntry as Entry};
ghost use Rattle.tree_paths.specs.Kept.{AreKept, ArePassed};
ghost use Rattle.tree_paths.specs.Shape.{shape};
ghost use Rattle.tree_paths.specs.Tree.{Look};

use crate::way::Way;
use node_cache::NodeCache;
use std::alloc::Global;
use std::num::NonZeroUsize;
use tee_base::NoMemory;

/// How many nodes a volume keeps.
const KEPT_NODES: usize = 64;

/// Nodes that are kept, and those that a read came by so far.
#[derive(Drop)]
pub struct Nodes {
    pub kept: NodeCache,
    pub(crate) way: Way,
}

impl Nodes {
    /// No node is kept.
    pub fn new(alloc: Global) -> Result<Nodes, NoMemory>
        ensures { IfOk result (λ nodes. HoldsNothing nodes.kept) }
    {
        let room = NonZeroUsize::new(KEPT_NODES).unwrap();
        Ok(Nodes {
            kept: NodeCache::new(alloc, room)?,
            way: Way::new(alloc),
        })
    }

    /// Keeps the nodes that a read came by.
    pub fn keep(&mut self)
        ensures { (look : Look) (root : Entry) → AreKept shape look root self.old.kept
            → ArePassed shape look root self.old.way → AreKept shape look root self.new.kept }
    {
        while let Some(passed) = self.way.pop() {
            self.kept.put(passed.place, &passed.tag, &passed.node);
        }
    }

    /// Lets all nodes go.
    pub fn clear(&mut self)
        ensures { HoldsNothing self.new.kept }
    {
        self.kept.clear();
        self.way.clear();
    }
}
