//! Each event of a log with its line, and the lines of its replies.
#![tactic(auto)]

#[cfg(test)]
mod adding;
#[cfg(test)]
mod logs;
