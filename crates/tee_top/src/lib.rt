//! The top calls: the race of a script, and beside it the run of one, which is that of `run_board`.
#![tactic(auto)]

mod logs;
mod racing;

pub use racing::race_tee;
pub use run_board::{Status, applications_are_apart, blank_boards_begin, run_tee, status_line};
