//! A region over leaves in memory: what is told of two objects, each rule of the format broken once, and every change beside a
//! store in memory.
#![tactic(auto)]

#[cfg(test)]
mod changes;
#[cfg(test)]
mod conversion;
#[cfg(test)]
mod counted;
#[cfg(test)]
mod kept;
#[cfg(test)]
mod letters;
#[cfg(test)]
mod memory;
#[cfg(test)]
mod reading;
#[cfg(test)]
mod rules;
#[cfg(test)]
mod steps;
