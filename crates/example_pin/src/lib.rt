//! The application Pin: a PIN that may be guessed wrongly three times in a row. No power cut gives a try back.
#![tactic(auto)]

mod answers;
mod commands;
mod hosts;
mod pin;
#[cfg(test)]
mod tests;

pub use hosts::pin_hosts;
pub use pin::{Attempt, Pin};
