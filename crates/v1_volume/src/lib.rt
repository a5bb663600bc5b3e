//! A volume of the first version: how all of it is read and verified, what its regions become, and the one commit that takes it
//! over.
#![tactic(auto)]

mod answer;
mod change;
mod conversion;
mod entries;
mod finding;
mod laws;
mod migrating;
mod old;
mod planting;
mod reading;
mod rules;
mod versions;

pub use answer::OldAnswer;
pub use conversion::convert;
pub use laws::{convert_laws, version_laws};
pub use migrating::migrate;
pub use old::{OldRegion, check};
pub use reading::read_regions;
pub use versions::VERSIONS;
