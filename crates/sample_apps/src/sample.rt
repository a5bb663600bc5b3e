//! The sample applications as one type.

use crate::count::Count;
use crate::crypt::Crypt;
use crate::rogue::Rogue;
use crate::store::Store;
use app_api::{Application, Ask, Given};
use std::alloc::Global;
use tee_base::NoMemory;

/// One of the sample applications.
#[derive(Debug, Drop)]
pub enum Sample {
    Store(Store),
    Count(Count),
    Crypt(Crypt),
    Rogue(Rogue),
}

impl Application for Sample {
    ghost use Rattle.sample_apps.specs.Samples.{next_state, next_ask};

    ghost behaviour = { record { next = next_state; asks = next_ask } };

    #[tactic(auto, unfolding(crate::specs::Samples::next_state, crate::specs::Samples::next_ask))]
    fn step(&mut self, alloc: Global, given: Given) -> Result<Ask, NoMemory> {
        match self {
            Sample::Store(store) => store.step(alloc, given),
            Sample::Count(count) => count.step(alloc, given),
            Sample::Crypt(crypt) => crypt.step(alloc, given),
            Sample::Rogue(rogue) => rogue.step(alloc, given),
        }
    }

    fn fresh(&self, alloc: Global) -> Result<Sample, NoMemory> {
        match self {
            Sample::Store(store) => Ok(Sample::Store(store.fresh(alloc)?)),
            Sample::Count(count) => Ok(Sample::Count(count.fresh(alloc)?)),
            Sample::Crypt(crypt) => Ok(Sample::Crypt(crypt.fresh(alloc)?)),
            Sample::Rogue(rogue) => Ok(Sample::Rogue(rogue.fresh(alloc)?)),
        }
    }
}
