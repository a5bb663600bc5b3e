//! What is proved of the blocks of shared memory, whatever events there were.

ghost use Rattle.std.specs.Prelude.{ℕ, List};
ghost use Rattle.app_api.specs.declared.host.Host.{Host};
ghost use Rattle.store_api.specs.Stores.{Store};
ghost use Rattle.alone.specs.Machine.{Machine, start};
ghost use Rattle.alone.specs.Runs.{machine_after};
ghost use Rattle.alone.specs.Sharing.{ChangesBlocks, EntriesHaveRoom, ReferencesHold};
ghost use Rattle.alone.specs.Step.{Event};

use app_api::Application;

/// An event changes blocks only as such an event may: a call the client's own, a turn those that the call of the operation
/// names which the turn's entry serves. So no teardown and no loss of power changes one.
pub fn blocks_change_by_events<A: Application>()
    ensures { (m : Machine A) (event : Event) → ChangesBlocks A.behaviour m event }
{}

/// Whatever happened, each reference of an unanswered operation may be used, and what the entry that runs for it gives finds
/// its place there.
pub fn references_hold<A: Application>()
    ensures usable { (host : Host A) (index : ℕ) (seed : List ℕ) (store : Store)
        (events : List Event)
        → ReferencesHold (machine_after A.behaviour (start host index seed store) events) }
    ensures room { (host : Host A) (index : ℕ) (seed : List ℕ) (store : Store)
        (events : List Event)
        → EntriesHaveRoom (machine_after A.behaviour (start host index seed store) events) }
{}
