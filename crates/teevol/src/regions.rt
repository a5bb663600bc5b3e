//! What is found of a region.

ghost use Rattle.std.specs.Prelude.{◌<◌};
ghost use Rattle.tee_base.specs.declared.limits.TheConstants.{MAX_HOSTS};

use crate::ended::Ended;
use inspect::objects_of;
use region_plan::cost;
use std::alloc::Global;
use store_api::{Listed, Mismatch, StoreAnswer, Volume};

/// What is found of a region.
#[derive(Drop)]
pub enum Found {
    /// Its objects, the least identifier first.
    Objects(Vec<Listed>),
    /// This leaf breaks a rule.
    Broken(u16),
    /// What is read of a leaf isn't what was written.
    Damaged(Mismatch),
}

impl Found {
    /// Whether it is a region without objects.
    pub fn is_empty(&self) -> bool {
        match self {
            Found::Objects(objects) => objects.is_empty(),
            _ => false,
        }
    }

    /// Whether it is the region's objects.
    pub fn is_sound(&self) -> bool {
        matches!(self, Found::Objects(_))
    }
}

/// What is found of a region of a volume.
pub fn found_in<V: Volume>(alloc: Global, volume: &mut V, region: u8) -> Result<Found, Ended>
    requires { region < MAX_HOSTS }
{
    match objects_of(alloc, volume, region) {
        Ok(objects) => Ok(Found::Objects(objects)),
        Err(StoreAnswer::Garbled(leaf)) => Ok(Found::Broken(leaf)),
        Err(StoreAnswer::Corrupt(tags)) => Ok(Found::Damaged(tags)),
        Err(why) => Err(Ended::unread(why)),
    }
}

/// How many leaves an object takes.
pub fn leaves_of(object: &Listed) -> u32 {
    cost(object.facts.length)
}

/// How many leaves all of these take.
pub fn all_leaves(objects: &[Listed]) -> u64 {
    let mut all = 0u64;
    for object in objects {
        all = all.saturating_add(u64::from(leaves_of(object)));
    }
    all
}
