//! The cells of all applications, and that of the storage.

use alone::AppLog;
use app_api::Application;
use shared_parts::{HostedApp, Storage};
use std::alloc::Global;
use std::marker::Model;
use store_api::Volume;
use turn_cell::TurnCell;

/// Applications that threads share, over one volume. It is lent to all threads; each call is given a pass.
#[derive(Drop)]
pub struct SharedTeeOver<V: Volume, A: Application> {
    pub(crate) alloc: Global,
    /// A cell for each application, in the order of the hosts. A cell's name is its place.
    pub(crate) cells: Vec<TurnCell<HostedApp<V, A>>>,
    /// The storage's cell, which is named 16.
    pub(crate) storage: TurnCell<Storage<V, A>>,
    /// Room for the log of each application.
    pub(crate) logs: Vec<AppLog>,
}

impl<V: Volume, A: Application> Model for SharedTeeOver<V, A> {
    ghost use Rattle.shared_tee.specs.Passes.{Places};

    ghost Value = { Places };

    ghost use Rattle.std.specs.Prelude.{vec_capacity};
    ghost use Rattle.shared_tee.specs.Shared.{IsShared, places_of};

    ghost view = { λ s. places_of s.cells.items s.storage };

    ghost invariant = { λ s. IsShared s.cells.items s.storage s.logs.items (vec_capacity s.logs) };
}
