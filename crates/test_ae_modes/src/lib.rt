//! AES-GCM and AES-CMAC beside published vectors.
#![tactic(auto)]

#[cfg(test)]
mod beginning;
#[cfg(test)]
mod codes;
#[cfg(test)]
mod messages;
#[cfg(test)]
mod rows;
