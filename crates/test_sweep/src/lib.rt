//! Whole scripts and a workload over a board in memory that fails at a single call, that is too small, or that has an image of the
//! first version; and how each status is told.
#![tactic(auto)]

#[cfg(test)]
mod failures;
#[cfg(test)]
mod migrated;
#[cfg(test)]
mod refused;
#[cfg(test)]
mod runs;
#[cfg(test)]
mod statuses;
