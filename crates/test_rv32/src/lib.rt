//! Each instruction of RV32I and its edges, by rows of our own.
#![tactic(auto)]

#[cfg(test)]
mod accesses;
#[cfg(test)]
mod jumps;
#[cfg(test)]
mod machines;
#[cfg(test)]
mod stops;
#[cfg(test)]
mod values;
