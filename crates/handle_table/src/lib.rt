//! The object handles of one application, of all its instances (TEE Internal Core API 1.3, sections 5.5 and 5.7).
#![tactic(auto)]

mod handle;
mod lists;
mod table;

pub use handle::{Handle, HandleAnswer};
pub use table::HandleTable;
