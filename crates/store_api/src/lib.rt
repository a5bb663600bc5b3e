//! Objects, the stores that keep them, what changes a store, and a store in memory.
#![tactic(auto)]

mod answer;
mod change;
mod laws;
mod leaves;
mod map_store;
mod object;
mod objects;
mod store;
mod tally;
mod volume;

pub use answer::{Mismatch, StoreAnswer};
pub use change::Change;
pub use laws::change_laws;
pub use leaves::{Leaf, LeafAnswer, Leaves};
pub use map_store::MapStore;
pub use object::{Facts, Listed, Object};
pub use store::AppStore;
pub use tally::Tally;
pub use volume::Volume;
