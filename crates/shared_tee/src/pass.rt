//! What a client carries of an application.

use app_api::Application;
use shared_parts::HostedApp;
use std::marker::Model;
use store_api::Volume;
use turn_cell::CellSeat;

/// A client's pass of an application: its seat of the application's cell, with what it knows of it.
#[derive(Drop)]
pub struct Pass<V: Volume, A: Application> {
    pub(crate) app: u8,
    pub(crate) client: u8,
    /// How many calls it made.
    pub(crate) calls: u64,
    pub(crate) seat: CellSeat<HostedApp<V, A>>,
}

impl<V: Volume, A: Application> Model for Pass<V, A> {
    ghost use Rattle.std.specs.Coded.{codes};
    ghost use Rattle.store_api.specs.Stores.{coded_store};
    ghost use Rattle.shared_tee.specs.Passes.{PassView};

    ghost Value = { PassView V A };

    ghost coded = { Prim.hlevel (codes, coded_store) };

    ghost use Rattle.turn_cell.specs.Words.{cell_id_of, view as known};
    ghost use Rattle.shared_tee.specs.Passes.{IsPass};

    ghost view = { λ p. record {
      app = p.app;
      client = p.client;
      calls = p.calls;
      cell = cell_id_of p.seat;
      seat = known p.seat;
    } };

    ghost invariant = { λ p. IsPass V.keeper A.behaviour (record {
      app = p.app;
      client = p.client;
      calls = p.calls;
      cell = cell_id_of p.seat;
      seat = known p.seat;
    }) };
}
