//! Rows of calls on a store in memory.
#![tactic(auto)]

#[cfg(test)]
mod calls;
#[cfg(test)]
mod identifiers;
