//! Each ask about objects, enumerators and keys: what comes of it, and each refusal, by the standard's text. The store is in
//! memory, and serves, fails and is lost as a table says, or tells of damage.
#![tactic(auto)]

#[cfg(test)]
mod content;
#[cfg(test)]
mod damaged;
#[cfg(test)]
mod failing;
#[cfg(test)]
mod keys;
#[cfg(test)]
mod lists;
#[cfg(test)]
mod objects;
#[cfg(test)]
mod rows;
