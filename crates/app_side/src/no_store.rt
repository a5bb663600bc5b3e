//! A store that serves nothing, for turns that need none.

use store_api::{AppStore, Change, Facts, Listed, StoreAnswer, Tally};
use tee_base::Bytes;

/// An empty store, lost or not, which serves no call: where it isn't lost it answers that there is no memory.
#[derive(Drop)]
pub(crate) struct NoStore {
    lost: bool,
    change_attempts: Tally,
}

impl NoStore {
    ghost use Rattle.std.specs.Prelude.{◌≡◌, IsErr};
    ghost use Rattle.store_api.specs.Keeping.{Attempts, HasCause};
    ghost use Rattle.app_side.specs.Storeless.{IsRefusalOf, status_of};

    /// One that is lost, or not.
    pub(crate) fn new(lost: bool) -> NoStore
        ensures lost { result.lost ≡ lost }
    {
        NoStore {
            lost,
            change_attempts: Tally::none(),
        }
    }

    /// A law: no call of it fails, and none tells of damage.
    pub(crate) fn bounds(&self)
        ensures faults { (status_of self.now).faults ≡ 0 }
        ensures damage { (status_of self.now).damage_reports ≡ 0 }
    {
        let _ = &self.lost;
    }

    /// What it answers to each call.
    fn refuse<A>(&self) -> Result<A, StoreAnswer>
        ensures { IsRefusalOf self.now.lost result }
    {
        if self.lost {
            return Err(StoreAnswer::Lost);
        }
        Err(StoreAnswer::NoMemory)
    }
}

impl AppStore for NoStore {
    ghost use Rattle.std.specs.Prelude.{[]};
    ghost use Rattle.store_api.specs.MapStores.{contents_after};
    ghost use Rattle.store_api.specs.Stores.{empty_store};
    ghost use Rattle.app_side.specs.Storeless.{status_of};

    /// It answers from an empty store, and no crash is spoken of.
    ghost keeper = { record {
      has_model = λ _. Unit {0};
      contents = λ _. contents_after [] empty_store;
      status = λ s. status_of s;
      honest_below = λ _. ⊥;
      honest = λ _. ⊥;
      damage = λ _ _. ⊥;
      moment = λ _. 0;
      left_since = λ _ _ _. ⊥;
    } };

    ghost honest_model = { λ _ h. absurd h };

    ghost since_earlier = { λ _ _ _ _ _ left. left };

    ghost left_now = { λ _ h _. absurd h };

    fn find(&mut self, _id: &[u8]) -> Result<Facts, StoreAnswer> {
        self.refuse()
    }

    fn secret(&mut self, _id: &[u8]) -> Result<Bytes, StoreAnswer> {
        self.refuse()
    }

    fn read(&mut self, _id: &[u8], _from: u32, _count: u32) -> Result<Bytes, StoreAnswer> {
        self.refuse()
    }

    fn next_after(&mut self, _last: Option<&[u8]>) -> Result<Listed, StoreAnswer> {
        self.refuse()
    }

    fn apply(&mut self, _change: &Change) -> Result<(), StoreAnswer> {
        self.change_attempts = self.change_attempts.one_more();
        self.refuse()
    }

    fn faults(&self) -> u64 {
        let _ = &self.lost;
        0
    }
}
