//! The cache.
ghost use Rattle.std.specs.Prelude.{◌≡◌, ◌⊎◌, ℕ, List, Some, IfOk, option_copied};
ghost use Rattle.node_cache.specs.Kept.{HoldsNothing, kept_at};

use lru::LruCache;
use std::alloc::Global;
use std::marker::Model;
use std::num::NonZeroUsize;
use tee_base::NoMemory;

/// A node, and the tag under which it is kept.
#[derive(Clone, Copy)]
pub struct Kept {
    tag: [u8; 32],
    node: [u8; 1024],
}

/// Nodes that are kept, at most one a place.
#[derive(Drop)]
pub struct NodeCache {
    nodes: LruCache<u64, Kept>,
}

impl Model for NodeCache {
    ghost use Rattle.std.specs.Prelude.{ℕ, List};
    ghost use Rattle.node_cache.specs.declared.cache.Kept.{Kept as KeptNode};

    ghost Value = { List (ℕ × KeptNode) };

    ghost view = { λ c. c.nodes.entries };
}

impl NodeCache {
    /// A cache of no node, with room for so many.
    pub fn new(alloc: Global, nodes: NonZeroUsize) -> Result<NodeCache, NoMemory>
        ensures nothing { IfOk result (λ c. HoldsNothing c) }
    {
        match LruCache::new(alloc, nodes) {
            Ok(nodes) => Ok(NodeCache { nodes }),
            Err(_) => Err(NoMemory),
        }
    }

    /// The node that is kept at a place, where it is kept under this tag.
    #[tactic(auto, unfolding(crate::specs::Kept::kept_at))]
    pub fn peek(&self, place: u64, tag: &[u8; 32]) -> Option<&[u8; 1024]>
        ensures node { option_copied result ≡ kept_at self.now place tag.now }
    {
        let kept = self.nodes.peek(&place)?;
        if kept.tag == *tag {
            Some(&kept.node)
        } else {
            None
        }
    }

    /// Notes that the node of a place is used. The nodes that are kept stay.
    pub fn touch(&mut self, place: u64)
        ensures same { (p : ℕ) (t : List ℕ) → kept_at self.new p t ≡ kept_at self.old p t }
    {
        let _known = self.nodes.promote(&place);
    }

    /// Keeps a node of a place under this tag, in place of another of that place. Other nodes may go. Where there is no
    /// memory for it, the cache stays as it is.
    pub fn put(&mut self, place: u64, tag: &[u8; 32], node: &[u8; 1024])
        ensures put { (self.new ≡ self.old) ⊎ (kept_at self.new place tag.now ≡ Some node.now) }
        ensures others { (p : ℕ) (t n : List ℕ) → kept_at self.new p t ≡ Some n
            → (kept_at self.old p t ≡ Some n) ⊎ ((p ≡ place) × (t ≡ tag.now) × (n ≡ node.now)) }
    {
        let kept = Kept {
            tag: *tag,
            node: *node,
        };
        let _before = self.nodes.put(place, kept);
    }

    /// Lets all nodes go.
    pub fn clear(&mut self)
        ensures nothing { HoldsNothing self.new }
    {
        self.nodes.clear();
    }
}
