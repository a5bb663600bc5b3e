//! Applications as the runtime sees them: parameters and outputs, entries and asks, the trait, and the hosts that carry them.
#![tactic(auto)]

mod application;
mod ask;
mod call;
mod host;
mod login;
mod out;
mod param;
mod reference;

pub use application::Application;
pub use ask::{Answer, Ask, Entry, Given};
pub use call::Call;
pub use host::{Host, Properties, hosts_fit};
pub use login::Login;
pub use out::{Out, Outs};
pub use param::{Param, Params, TooLarge};
pub use reference::{Direction, Reference, References};
