//! One region of a volume.

ghost use Rattle.std.specs.Prelude.{◌<◌};
ghost use Rattle.tee_base.specs.declared.limits.TheConstants.{MAX_HOSTS};

use region_plan::{Form, LeafSource};
use store_api::{LeafAnswer, Leaves, StoreAnswer, Volume};
use tee_base::limits::BLOCK_BYTES;

/// The form of the regions in use.
pub const IN_USE: Form = Form::Two;

/// One region of a volume.
#[derive(Drop)]
pub struct Region<'v, V> {
    pub volume: &'v mut V,
    pub number: u8,
    ghost fits: { number < MAX_HOSTS },
}

impl<V: Volume> LeafSource for Region<'_, V> {
    ghost use Rattle.object_dir.specs.Regions.{region_keeper};

    ghost keeper = { region_keeper V.keeper };

    ghost region = { λ r. r.number };

    ghost rests = { λ r honest works. record { only = (V.rests r.volume.now honest works).only } };

    ghost sound = { λ r honest works leaf below. V.sound r.volume.now honest works r.number leaf r.fits below };

    ghost found = { λ r honest works leaf below. V.found r.volume.now honest works r.number leaf r.fits below };

    ghost honest_tells = { λ r honest. V.honest_tells r.volume.now honest };

    fn leaf(&mut self, number: u16, into: &mut [u8; BLOCK_BYTES]) -> Result<(), LeafAnswer> {
        self.volume.read_leaf(self.number, number, into)
    }

    fn faults(&self) -> u64 {
        self.volume.faults()
    }

    fn is_lost(&self) -> bool {
        self.volume.is_lost()
    }
}

impl<V: Volume> Region<'_, V> {
    ghost use Rattle.std.specs.Prelude.{IsTrue};
    ghost use Rattle.store_api.specs.Ascending.{is_above_all};
    ghost use Rattle.tee_base.specs.declared.limits.TheConstants.{LEAVES};
    ghost use Rattle.object_dir.specs.Changing.{CommitsRegion};

    /// Replaces these leaves, all or none, and answers as a store does.
    pub(crate) fn commit(&mut self, leaves: &Leaves) -> Result<(), StoreAnswer>
        requires { IsTrue (is_above_all leaves.now LEAVES) }
        ensures { CommitsRegion V.keeper leaves.now result self.old self.new }
    {
        match self.volume.commit(self.number, leaves) {
            Ok(_sequence) => Ok(()),
            Err(answer) => Err(StoreAnswer::from(answer)),
        }
    }
}
