//! Laws of the rule by which a board is opened, proved on a function that does nothing.
ghost use Rattle.epoch.specs.Laws.{OpeningKeepsLeaves, RefusesRollback, OpensAtTwo};

/// At every counter above its sequence an image is refused as a rollback; it opens at its sequence, and at the counter
/// one below, alone. An opening keeps the leaves of each region.
pub fn opening_laws()
    ensures rollback { RefusesRollback }
    ensures counters { OpensAtTwo }
    ensures leaves { OpeningKeepsLeaves }
{}
