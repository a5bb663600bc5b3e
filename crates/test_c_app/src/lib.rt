//! Programs of a few instructions as applications: each ask and each answer, each panic, entries with their outputs, and yields.
#![tactic(auto)]

#[cfg(test)]
mod answers;
#[cfg(test)]
mod asks;
#[cfg(test)]
mod entries;
#[cfg(test)]
mod machines;
#[cfg(test)]
mod panics;
