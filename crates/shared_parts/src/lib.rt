//! What the cells of a runtime with threads hold: an application beside its log, and the storage that applications share.
//!
//! The log of such an application is legal, the application represents the machine that the log leads to, and all that lives in
//! it has its place in the log.
#![tactic(auto)]

mod hosted;
mod hosting;
mod missed;
mod opening;
mod recorded;
mod recording;
mod storage;
mod storing;
mod unseated;

pub use hosted::{CLIENTS, HostedApp, SeenClient, SeenEvent};
pub use missed::Missed;
pub use recorded::{Posted, Recorded, SharedAnswer};
pub use storage::{Loss, SeenEntry, SeenPart, Storage, Unstored};
pub use unseated::UnseatedApp;
