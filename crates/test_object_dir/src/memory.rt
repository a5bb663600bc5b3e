//! A volume in memory.

ghost use Rattle.std.specs.Prelude.{◌≡◌, ◌<◌, [], None, false, vec_len};
ghost use Rattle.std.proofs.Common.{arith};
ghost use Rattle.store_api.specs.Foundations.{no_foundation};
ghost use Rattle.tee_base.specs.declared.limits.TheConstants.{LEAVES, MAX_HOSTS};

use std::alloc::Global;
use std::process::Abort;
use store_api::{Leaf, LeafAnswer, Leaves, Mismatch, Volume};
use tee_base::limits::{BLOCK_BYTES, LEAVES, MAX_HOSTS};

/// How the next commit ends.
#[derive(Clone, Copy)]
pub enum Ending {
    Works,
    /// It fails, and nothing is written.
    FailsBefore,
    /// It fails, and all is written.
    FailsBehind,
}

/// The leaves of sixteen regions.
#[derive(Drop)]
struct Regions {
    leaves: Vec<[u8; BLOCK_BYTES]>,
    ghost whole: { vec_len leaves ≡ 16384 },
}

impl Regions {
    ghost use Rattle.std.specs.Prelude.{◌<◌};

    fn leaf(&self, region: u8, leaf: u16) -> [u8; BLOCK_BYTES]
        requires region { region < MAX_HOSTS }
        requires leaf { leaf < LEAVES }
    {
        self.leaves[LEAVES * region as usize + leaf as usize]
    }

    /// Replaces leaves of a region.
    fn replace(&mut self, region: u8, named: &[Leaf])
        requires { region < MAX_HOSTS }
    {
        for leaf in named {
            if usize::from(leaf.number) < LEAVES {
                self.leaves[LEAVES * region as usize + leaf.number as usize] = leaf.bytes;
            }
        }
    }
}

#[derive(Drop)]
pub struct Memory {
    regions: Regions,
    sequence: u64,
    faults: u64,
    pub lost: bool,
    pub ending: Ending,
    /// The leaf of each region whose tag differs, if there is one.
    pub damaged: Option<u16>,
}

/// A volume of zeros.
pub fn blank(rt: &impl Abort, alloc: Global) -> Memory {
    let mut leaves = Vec::new(alloc);
    let is_there = leaves.resize(MAX_HOSTS * LEAVES, [0; BLOCK_BYTES]).is_ok();
    assert!(rt; is_there);
    Memory {
        regions: Regions { leaves },
        sequence: 0,
        faults: 0,
        lost: false,
        ending: Ending::Works,
        damaged: None,
    }
}

impl Memory {
    ghost use Rattle.std.specs.Prelude.{◌≡◌, ◌≤◌, true};
    ghost use Rattle.tee_base.specs.Faults.{Rose};
    ghost use Rattle.store_api.specs.declared.leaves.LeafAnswer.TheVariants.{Failed};

    /// Fails, and is lost.
    fn fail(&mut self) -> LeafAnswer
        ensures answer { result ≡ Failed }
        ensures lost { self.new.lost ≡ true }
        ensures later { self.old.faults ≤ self.new.faults }
        ensures cause { Rose self.old.faults self.new.faults }
        ensures sequence { self.new.sequence ≡ self.old.sequence }
    {
        self.faults = self.faults.saturating_add(1);
        self.lost = true;
        LeafAnswer::Failed
    }
}

/// Writes a leaf of a region, without a commit.
pub fn write(memory: &mut Memory, region: u8, leaf: Leaf)
    requires { region < MAX_HOSTS }
{
    memory.regions.replace(region, &[leaf]);
}

impl Volume for Memory {
    ghost keeper = { record {
      tells_reads = false;
      leaves = LEAVES;
      held = λ m. record { leaves = λ r l. []; sequence = m.sequence; version = 0 };
      condition = λ m. record { lost = m.lost; faults = m.faults; writes = 0; foundation = no_foundation };
      honest_below = λ m. ⊥;
      honest = λ m. ⊥;
      text = λ m r l. [];
      damage = λ m r l. None;
      moment = λ m. 0;
      left_since = λ m t o. ⊥;
    } };

    ghost whole = { Prim.omega arith };

    ghost rests = { λ v h works. absurd h };

    ghost left_now = { λ v h works. absurd h };

    ghost sound = { λ v h works r l few below. absurd h };

    ghost found = { λ v h works r l few below. absurd h };

    ghost honest_tells = { λ v h. absurd h };

    ghost since_earlier = { λ v t u o le left. left };

    fn read_leaf(
        &mut self,
        region: u8,
        leaf: u16,
        into: &mut [u8; BLOCK_BYTES],
    ) -> Result<(), LeafAnswer> {
        if self.lost {
            return Err(LeafAnswer::Lost);
        }
        if matches!(self.damaged, Some(number) if number == leaf) {
            return Err(LeafAnswer::Mismatch(Mismatch {
                found: [0; 32],
                kept: [1; 32],
            }));
        }
        *into = self.regions.leaf(region, leaf);
        Ok(())
    }

    fn commit(&mut self, region: u8, leaves: &Leaves) -> Result<u64, LeafAnswer> {
        if self.lost {
            return Err(LeafAnswer::Lost);
        }
        if matches!(self.ending, Ending::FailsBefore) || self.sequence == u64::MAX {
            return Err(self.fail());
        }
        self.regions.replace(region, leaves.as_slice());
        if matches!(self.ending, Ending::FailsBehind) {
            return Err(self.fail());
        }
        self.sequence += 1;
        Ok(self.sequence)
    }

    fn faults(&self) -> u64 {
        self.faults
    }

    fn is_lost(&self) -> bool {
        self.lost
    }

    fn sequence(&self) -> u64 {
        self.sequence
    }
}
