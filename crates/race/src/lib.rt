//! A race over a board: the board is opened, each client's lines are made in a thread of its own, and the logs and the board come back.
#![tactic(auto)]

mod calls;
mod client;
mod dealing;
mod lines;
mod over_board;
mod worker;
mod workers;

pub use client::Stopped;
pub use over_board::{Raced, race_over};
