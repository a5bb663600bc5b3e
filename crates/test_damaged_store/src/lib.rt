//! A store whose calls tell of damage. Its users are tests.
#![tactic(auto)]

#[cfg(test)]
mod tests;

use store_api::{AppStore, Change, Facts, Listed, Mismatch, StoreAnswer, Tally};
use tee_base::Bytes;

/// What a call meets.
#[derive(Clone, Copy)]
pub enum Meets {
    /// A leaf whose tag differs from the one that is kept.
    OtherTag,
    /// A leaf that breaks a rule.
    BrokenRule,
}

/// An empty store. Its calls meet the damage that is named, one after the other, and further ones the last; where there
/// is none, nothing is found. No call fails.
#[derive(Drop)]
pub struct Damaged {
    first: Option<Meets>,
    second: Option<Meets>,
    later: Option<Meets>,
    faults: u64,
    damage_reports: Tally,
    change_attempts: Tally,
}

impl Damaged {
    ghost use Rattle.std.specs.Prelude.{◌≡◌, false, IsErr};
    ghost use Rattle.store_api.specs.Keeping.{Attempts, HasCause};
    ghost use Rattle.test_damaged_store.specs.Damages.{status_of};

    /// A store whose first call meets this, its second that, and each one behind them the last.
    pub fn new(first: Option<Meets>, second: Option<Meets>, later: Option<Meets>) -> Damaged
        ensures lost { (status_of result).lost ≡ false }
        ensures faults { result.faults ≡ 0 }
        ensures reports { result.damage_reports ≡ 0 }
        ensures attempts { result.change_attempts ≡ 0 }
    {
        Damaged {
            first,
            second,
            later,
            faults: 0,
            damage_reports: Tally::none(),
            change_attempts: Tally::none(),
        }
    }

    /// A store of which each call meets this damage.
    pub fn always(met: Meets) -> Damaged
        ensures lost { (status_of result).lost ≡ false }
        ensures faults { result.faults ≡ 0 }
        ensures reports { result.damage_reports ≡ 0 }
        ensures attempts { result.change_attempts ≡ 0 }
    {
        Damaged::new(Some(met), Some(met), Some(met))
    }

    /// What it answers to the call that is made now.
    fn answer<A>(&mut self) -> Result<A, StoreAnswer>
        ensures cause { HasCause result (status_of self.old) (status_of self.new) }
        ensures attempts { Attempts 0 (status_of self.old) (status_of self.new) }
        ensures err { IsErr result }
    {
        let met = self.first;
        self.first = self.second;
        self.second = self.later;
        let Some(met) = met else {
            return Err(StoreAnswer::NotFound);
        };
        self.damage_reports = self.damage_reports.one_more();
        Err(match met {
            Meets::OtherTag => StoreAnswer::Corrupt(Mismatch {
                found: [0; 32],
                kept: [1; 32],
            }),
            Meets::BrokenRule => StoreAnswer::Garbled(5),
        })
    }
}

impl AppStore for Damaged {
    ghost use Rattle.std.specs.Prelude.{[]};
    ghost use Rattle.store_api.specs.MapStores.{contents_after};
    ghost use Rattle.store_api.specs.Stores.{empty_store};
    ghost use Rattle.test_damaged_store.specs.Damages.{status_of};

    /// It has no store to answer from, and isn't honest.
    ghost keeper = { record {
      has_model = λ _. ⊥;
      contents = λ _. contents_after [] empty_store;
      status = status_of;
      honest_below = λ _. ⊥;
      honest = λ _. ⊥;
      damage = λ _ _. Unit {0};
      moment = λ _. 0;
      left_since = λ _ _ _. ⊥;
    } };

    ghost honest_model = { λ _ h. absurd h };

    ghost since_earlier = { λ _ _ _ _ _ left. left };

    ghost left_now = { λ _ h _. absurd h };

    fn find(&mut self, _id: &[u8]) -> Result<Facts, StoreAnswer> {
        self.answer()
    }

    fn secret(&mut self, _id: &[u8]) -> Result<Bytes, StoreAnswer> {
        self.answer()
    }

    fn read(&mut self, _id: &[u8], _from: u32, _count: u32) -> Result<Bytes, StoreAnswer> {
        self.answer()
    }

    fn next_after(&mut self, _last: Option<&[u8]>) -> Result<Listed, StoreAnswer> {
        self.answer()
    }

    fn apply(&mut self, _change: &Change) -> Result<(), StoreAnswer> {
        self.change_attempts = self.change_attempts.one_more();
        self.answer()
    }

    fn faults(&self) -> u64 {
        self.faults
    }
}
