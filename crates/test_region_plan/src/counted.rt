//! A source of leaves that counts its reads.

use region_plan::LeafSource;
use store_api::LeafAnswer;
use tee_base::limits::BLOCK_BYTES;

/// As many leaves as a region has in any form.
pub const LEAVES: usize = 1024;

/// A source, and how often each of its leaves was read.
#[derive(Drop)]
pub struct Counted<L> {
    pub source: L,
    pub reads: [u8; LEAVES],
}

/// Counts a read of a leaf.
fn count(reads: &mut [u8; LEAVES], number: usize) {
    if number < LEAVES {
        reads[number] = reads[number].saturating_add(1);
    }
}

impl<L: LeafSource> LeafSource for Counted<L> {
    ghost keeper = { record {
      tells_reads = L.keeper.tells_reads;
      leaves = L.keeper.leaves;
      held = λ c. L.keeper.held c.source;
      condition = λ c. L.keeper.condition c.source;
      honest_below = λ c. L.keeper.honest_below c.source;
      honest = λ c. L.keeper.honest c.source;
      text = λ c. L.keeper.text c.source;
      damage = λ c. L.keeper.damage c.source;
      moment = λ c. L.keeper.moment c.source;
      left_since = λ c. L.keeper.left_since c.source;
    } };

    ghost region = { λ c. L.region c.source };

    ghost rests = { λ c honest works. record { only = (L.rests c.source honest works).only } };

    ghost sound = { λ c honest works leaf below. L.sound c.source honest works leaf below };

    ghost found = { λ c honest works leaf below. L.found c.source honest works leaf below };

    ghost honest_tells = { λ c honest. L.honest_tells c.source honest };

    fn leaf(&mut self, number: u16, into: &mut [u8; BLOCK_BYTES]) -> Result<(), LeafAnswer> {
        count(&mut self.reads, number as usize);
        self.source.leaf(number, into)
    }

    fn faults(&self) -> u64 {
        self.source.faults()
    }

    fn is_lost(&self) -> bool {
        self.source.is_lost()
    }
}
