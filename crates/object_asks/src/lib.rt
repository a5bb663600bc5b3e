//! What comes of asks about objects, over what one application holds in memory and whatever keeps its store.
#![tactic(auto)]

mod checks;
mod enumerating;
mod held;
mod keyring;
mod keys;
mod laws;
mod lending;
mod names;
mod numbered;
mod opening;
mod outcome;
mod serving;
mod source;
mod stream;
mod turn;
mod walks;

pub use held::Held;
pub use keys::{generate, random_wanted};
pub use laws::objects_stay_valid;
pub use lending::{KeyServed, key_of};
pub use outcome::{Ending, Outcome, Served, answered, panicked, refused};
pub use serving::serve;
pub use turn::TurnKind;
