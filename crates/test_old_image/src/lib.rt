//! Images of the first version of a volume, written by its tables alone, and a board that loses what it acknowledged, for
//! tests and measurements.
#![tactic(auto)]

mod forgetful;
pub mod layout;
mod regions;
mod writing;

pub use forgetful::Forgetful;
pub use regions::{OldObject, OldRegions};
pub use writing::{raise_counter, write_image};
