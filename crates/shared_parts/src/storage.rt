//! The storage that applications share.

use alone::TurnKind;
use app_api::Application;
use app_side::AppSide;
use std::alloc::Global;
use std::marker::{Model, PhantomData};
use std::snapshot::Snapshot;
use store_api::Volume;
use tee_base::NoMemory;
use tee_core::Directories;
use turn_cell::Parted;

/// There was no memory for a storage. The volume comes back.
#[derive(Drop)]
pub struct Unstored<V> {
    pub volume: V,
    pub why: NoMemory,
}

/// How the storage was lost. Contracts read of it which change is in doubt.
#[derive(Drop)]
pub struct Loss<V, A> {
    /// The application whose turn lost it, and the instance that had the turn.
    pub(crate) app: u8,
    pub(crate) instance: u8,
    /// The count of faults after the turn.
    pub(crate) faults: u64,
    /// The application and the volume before the turn.
    pub(crate) side: Snapshot<AppSide<A>>,
    pub(crate) volume: Snapshot<V>,
}

/// The volume that keeps the objects of all applications, with what seats of its cell see: a part for each application, and a
/// trail that holds how it was opened and then its loss.
///
/// A part is an application's objects as its last turn left them, with the change in doubt where there is one.
#[derive(Drop)]
pub struct Storage<V: Volume, A: Application> {
    pub(crate) alloc: Global,
    pub(crate) volume: V,
    /// The volume as it was opened. It has no bytes.
    pub(crate) opened: Snapshot<V>,
    /// For each application the volume as its last turn left it. They have no bytes.
    pub(crate) seen: Vec<Snapshot<V>>,
    pub(crate) kept: Directories,
    pub(crate) loss: Option<Loss<V, A>>,
}

impl<V: Volume, A: Application> Model for Storage<V, A> {
    ghost use Rattle.std.specs.Coded.{codes};
    ghost use Rattle.store_api.specs.Stores.{coded_store};
    ghost use Rattle.shared_parts.specs.StorageParts.{StorageView};

    ghost Value = { StorageView V };

    ghost coded = { Prim.hlevel (codes, coded_store) };

    ghost use Rattle.std.specs.Prelude.{length};
    ghost use Rattle.shared_parts.specs.StorageParts.{IsStorage, parts_by, trail_by};

    ghost view = { λ s. record {
      volume = s.volume;
      parts = parts_by V.keeper A.behaviour s.loss s.seen.items;
      trail = trail_by (length s.seen.items) s.opened.value s.loss;
    } };

    ghost invariant = { λ s. IsStorage V.keeper (length s.seen.items) s.volume s.opened.value
        s.loss s.kept.places (parts_by V.keeper A.behaviour s.loss s.seen.items) };
}

/// A part as seats see it. No value of it is made: it stands in contracts alone.
pub struct SeenPart {
    unseen: PhantomData<u8>,
}

impl Model for SeenPart {
    ghost use Rattle.std.specs.Coded.{codes};
    ghost use Rattle.store_api.specs.Stores.{coded_store};
    ghost use Rattle.shared_parts.specs.InStep.{StoragePart};

    ghost Value = { StoragePart };

    ghost coded = { Prim.hlevel (codes, coded_store) };

    ghost use Rattle.shared_parts.specs.StorageParts.{no_part};

    ghost view = { λ p. no_part };
}

/// An entry of the trail as seats see it. No value of it is made: it stands in contracts alone.
pub struct SeenEntry<V> {
    unseen: PhantomData<V>,
}

impl<V> Model for SeenEntry<V> {
    ghost use Rattle.shared_parts.specs.StorageParts.{LostBy, StorageEntry};

    ghost Value = { StorageEntry V };

    ghost view = { λ e. LostBy 0 0 };
}

impl<V: Volume, A: Application> Parted for Storage<V, A> {
    type Part = SeenPart;

    type Entry = SeenEntry<V>;

    ghost parts_of = { λ s. s.parts };

    ghost trail_of = { λ s. s.trail };

    fn parts(&self) -> u32 {
        self.seen.len() as u32
    }
}
