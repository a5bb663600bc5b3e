//! Each table of one application through its calls, with values by hand: handles, instances, operations, blocks of memory and
//! the clock; and streams that fail once.
#![tactic(auto)]

#[cfg(test)]
mod beginning;
#[cfg(test)]
mod blocks;
#[cfg(test)]
mod calls;
#[cfg(test)]
mod clock;
#[cfg(test)]
mod handles;
#[cfg(test)]
mod openings;
#[cfg(test)]
mod queues;
#[cfg(test)]
mod renames;
#[cfg(test)]
mod sessions;
#[cfg(test)]
mod streams;
