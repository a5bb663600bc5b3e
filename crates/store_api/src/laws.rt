//! What follows from the definition of a change, whatever keeps the store.

ghost use Rattle.store_api.specs.declared.change.Change.{Change as AnyChange};
ghost use Rattle.store_api.specs.Laws.{KeepsLimits, LeavesOthers};
ghost use Rattle.store_api.specs.Stores.{Store};

/// A change keeps a store within its limits, and leaves the objects of all other identifiers. It does nothing.
pub fn change_laws()
    ensures limits { (store : Store) (change : AnyChange) → KeepsLimits store change }
    ensures others { (store : Store) (change : AnyChange) → LeavesOthers store change }
{}
