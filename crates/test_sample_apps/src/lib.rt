//! Tables of what a sample is given, each row with what it then asks for.
#![tactic(auto)]

#[cfg(test)]
mod afresh;
#[cfg(test)]
mod given;
