//! What asks keep, whatever keeps the store.

ghost use Rattle.std.specs.Prelude.{ℕ, List};
ghost use Rattle.app_api.specs.declared.ask.Ask.{Ask as AnyAsk};
ghost use Rattle.store_api.specs.Stores.{Store};
ghost use Rattle.object_asks.specs.Asks.{Objects, with_held, object_resolution};
ghost use Rattle.object_asks.specs.Held.{instance_closed, nothing_held};
ghost use Rattle.object_asks.specs.Keys.{generate_resolution};
ghost use Rattle.object_asks.specs.Valid.{Goes, IsValidObjects};

/// Valid objects stay valid: at each ask, however the store does, and where an instance goes. It does nothing.
pub fn objects_stay_valid()
    ensures none { (store : Store)
        → IsValidObjects (record { store = store; held = nothing_held }) }
    ensures ask { (o : Objects) (i : ℕ) (ask : AnyAsk) → IsValidObjects o
        → Goes IsValidObjects (object_resolution o i ask) }
    ensures generate { (o : Objects) (i object bits : ℕ) (random : ℕ → List ℕ) → IsValidObjects o
        → Goes IsValidObjects (generate_resolution o i object bits random) }
    ensures closing { (o : Objects) (i : ℕ) → IsValidObjects o
        → IsValidObjects (with_held o (instance_closed o.held i)) }
{}
