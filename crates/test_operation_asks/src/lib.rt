//! Tables of asks about operations and random bytes, each with what comes of it: an Ok, each refusal and each misuse.
#![tactic(auto)]

#[cfg(test)]
mod asks;
#[cfg(test)]
mod given;
#[cfg(test)]
mod words;
