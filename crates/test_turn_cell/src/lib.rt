//! A cell that two seats share, in one thread and in two.
#![tactic(auto)]

#[cfg(test)]
mod tally;
#[cfg(test)]
mod turns;
