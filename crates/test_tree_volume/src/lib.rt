//! A volume on boards in memory: formatting, commits of one leaf and of twenty, each call of a commit stopped and failed,
//! a header of sequence 0, older images, and verifications.
#![tactic(auto)]

#[cfg(test)]
mod filling;
#[cfg(test)]
mod steps;
#[cfg(test)]
mod stops;
#[cfg(test)]
mod verified;
#[cfg(test)]
mod volumes;
