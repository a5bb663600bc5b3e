//! The modes ECB, CBC and CTR of SP 800-38A over AES, as streams: a message fed in pieces gives what the whole message gives.
#![tactic(auto)]

mod blocks;
mod by_block;
mod by_byte;
mod counter;
mod laws;
mod modes;
mod operations;
mod stream;

pub use blocks::{block_from, block_of_number, xor};
pub use counter::{key_block, start_at, write_piece};
pub use laws::decryption_undoes_encryption;
pub use modes::{Mode, ModeAnswer, Way};
pub use operations::start;
pub use stream::Stream;
