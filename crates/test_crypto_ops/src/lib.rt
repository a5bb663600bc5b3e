//! Operations and random streams against published vectors, in pieces, whole and at the largest size, and what each call
//! refuses.
#![tactic(auto)]

#[cfg(test)]
mod about;
#[cfg(test)]
mod authenticated;
#[cfg(test)]
mod calls;
#[cfg(test)]
mod operations;
#[cfg(test)]
mod random;
#[cfg(test)]
mod vectors;
