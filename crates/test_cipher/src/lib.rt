//! The cipher, its modes, codes and digests, and sealed blocks, beside published vectors and what others computed.
#![tactic(auto)]

#[cfg(test)]
mod blocks;
#[cfg(test)]
mod bytes;
#[cfg(test)]
mod digests;
#[cfg(test)]
mod macs;
#[cfg(test)]
mod modes;
#[cfg(test)]
mod pairs;
#[cfg(test)]
mod plain;
#[cfg(test)]
mod sealing;
