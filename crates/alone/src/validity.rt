//! What follows from the definition of a step for what a machine holds.

ghost use Rattle.std.specs.Prelude.{List, ℕ};
ghost use Rattle.app_api.specs.declared.host.Host.{Host};
ghost use Rattle.store_api.specs.Stores.{Store};
ghost use Rattle.alone.specs.Machine.{Machine, start};
ghost use Rattle.alone.specs.Step.{Event, step};
ghost use Rattle.alone.specs.Valid.{IsValid};

use app_api::Application;

/// A machine is valid at its start, and stays so at each event, also at one that may not stand. It does nothing.
pub fn machines_stay_valid<A: Application>()
    ensures start { (host : Host A) (index : ℕ) (seed : List ℕ) (store : Store)
        → IsValid (start host index seed store) }
    ensures step { (m : Machine A) (event : Event) → IsValid m
        → IsValid (step A.behaviour m event).machine }
{}
