//! What follows from the definition of a step for those who run several machines at once.

ghost use Rattle.std.specs.Prelude.{◌≡◌, ◌+◌, ◌≤◌, false, true, ℕ};
ghost use Rattle.app_api.specs.declared.call.Call.{Call};
ghost use Rattle.object_asks.specs.Asks.{Serving, Serves, Damaged};
ghost use Rattle.store_api.specs.Stores.{Store};
ghost use Rattle.alone.specs.Laws.{StorageStays, born_of, live, step_with_store, with_store};
ghost use Rattle.alone.specs.Machine.{Machine};
ghost use Rattle.alone.specs.Step.{Event, after_call, after_cancellation, needs_store, reaches, after_starved_turn, step, after_turn, turned_as};

use app_api::Application;

/// Each turn counts, however it goes, and no call does.
pub fn turns_are_counted<A: Application>()
    ensures made { (serving : Serving) (m : Machine A) (i : ℕ)
        → (turned_as A.behaviour serving m i).machine.turns ≡ m.turns + 1 }
    ensures starved { (m : Machine A) (i : ℕ)
        → (after_starved_turn m i).machine.turns ≡ m.turns + 1 }
    ensures called { (m : Machine A) (client : ℕ) (call : Call)
        → (after_call m client call).machine.turns ≡ m.turns }
{}

/// Only the power's return is a restart: it alone counts as one.
pub fn boots_stay<A: Application>()
    ensures made { (serving : Serving) (m : Machine A) (i : ℕ)
        → (turned_as A.behaviour serving m i).machine.boot ≡ m.boot }
    ensures starved { (m : Machine A) (i : ℕ) → (after_starved_turn m i).machine.boot ≡ m.boot }
    ensures called { (m : Machine A) (client : ℕ) (call : Call)
        → (after_call m client call).machine.boot ≡ m.boot }
    ensures cancelled { (m : Machine A) (op : ℕ) → (after_cancellation m op).machine.boot ≡ m.boot }
{}

/// Only a call brings operations and instances to life: an operation, and an instance for it.
pub fn few_are_born<A: Application>()
    ensures { (m : Machine A) (event : Event)
        → live (step A.behaviour m event).machine ≤ live m + born_of event }
{}

/// A turn that isn't lost leaves the change in doubt.
pub fn turns_leave_the_doubt<A: Application>()
    ensures serves { (m : Machine A) (i : ℕ)
        → (turned_as A.behaviour Serves m i).machine.in_doubt ≡ m.in_doubt }
    ensures damaged { (m : Machine A) (i : ℕ)
        → (turned_as A.behaviour Damaged m i).machine.in_doubt ≡ m.in_doubt }
    ensures starved { (m : Machine A) (i : ℕ)
        → (after_starved_turn m i).machine.in_doubt ≡ m.in_doubt }
{}

/// Neither a call nor its cancellation touches the storage.
pub fn calls_leave_the_storage<A: Application>()
    ensures called { (m : Machine A) (client : ℕ) (call : Call)
        → StorageStays m (after_call m client call).machine }
    ensures cancelled { (m : Machine A) (op : ℕ)
        → StorageStays m (after_cancellation m op).machine }
{}

/// A turn of an instance in which no ask waits that may need the store goes alike over every store; and only such an
/// ask comes to it.
pub fn turns_without_the_store<A: Application>()
    ensures alike { (m : Machine A) (i : ℕ) (store : Store) → needs_store m i ≡ false
        → after_turn A.behaviour (with_store store m) i
        ≡ step_with_store store (after_turn A.behaviour m i) }
    ensures reaches { (m : Machine A) (i : ℕ) → reaches m i ≡ true → needs_store m i ≡ true }
{}
