//! The AES block cipher of FIPS 197, on blocks of 16 bytes under keys of 128, 192 and 256 bits.
#![tactic(auto)]

mod block;
mod columns;
mod key;
mod laws;
mod rounds;
mod schedule;
mod shared;
mod tables;

pub use block::{decrypt_block, encrypt_block};
pub use key::{Key, WrongKeyLength};
pub use laws::{decryption_undoes_encryption, encryption_undoes_decryption};
pub use schedule::expand;
pub use shared::{SharedStart, encrypt_shared, shared_start};
