//! Operations: what they are, and their keys.

ghost use Rattle.std.specs.Prelude.{◌≡◌, ◌≤◌, length};
ghost use Rattle.std.specs.Bool.{OnTrue};
ghost use Rattle.tee_base.specs.declared.limits.TheConstants.{MAX_SECRET_BYTES};
ghost use Rattle.crypto_ops.specs.Operations.{CryptoOperation, allocate_answer, about_of, key_bits, lacks_key, reset_answer, operation_at_start, set_key_answer, with_key, clear_key_answer, without_key, may_change_key, is_same_algorithm, copy_answer, with_copy_of, after_ok, is_too_much, is_active};
ghost use Rattle.secret.specs.Bits.{bits_of};
ghost use Rattle.crypto_ops.specs.Represents.{Represents, IsAllocated};
ghost use Rattle.crypto_ops.specs.Algorithms as table;

use crate::about::OpAbout;
use crate::algorithm::{Algorithm, algorithm_at};
use crate::answer::OpAnswer;
use crate::keys::secret_fits;
use ae_modes::{Cmac, Gcm};
use aes_modes::Stream;
use mac_digest::{Digester, Mac};
use secret::{Secret, size_fits};
use tee_base::limits;

/// A cryptographic operation (TEE Internal Core API 1.3, section 6.2): what it computes, its key and its state.
#[derive(Drop)]
pub struct Operation {
    pub(crate) algorithm: Algorithm,
    pub(crate) max_bits: u32,
    pub(crate) key: Option<Secret>,
    pub(crate) state: State,
}

/// Initial, or active with what has taken the message so far.
#[derive(Drop)]
pub(crate) enum State {
    Initial,
    Cipher(Stream),
    Gcm(Gcm),
    Mac(Mac),
    Cmac(Cmac),
    Digest(Digester),
}

impl State {
    /// The same state once more: both go on from the same message. It takes no memory.
    fn copied(&self) -> State
        ensures { result ≡ self.now }
    {
        match self {
            State::Initial => State::Initial,
            State::Cipher(stream) => State::Cipher(*stream),
            State::Gcm(gcm) => State::Gcm(*gcm),
            State::Mac(mac) => State::Mac(mac.clone().unwrap()),
            State::Cmac(code) => State::Cmac(*code),
            State::Digest(digester) => State::Digest(digester.clone().unwrap()),
        }
    }
}

/// Whether these are more bytes, or more room, than a call may have.
pub(crate) fn is_too_much(count: usize) -> bool
    ensures { result ≡ is_too_much count }
{
    count > limits::MAX_ASK_BYTES as usize
}

impl Operation {
    /// A new operation: initial, without a key.
    ///
    /// # Errors
    ///
    /// NotSupported exactly where there is no such algorithm or mode, or the greatest size of its key in bits
    /// doesn't fit the kind of key.
    pub fn new(alg: u32, mode: u32, max_bits: u32) -> Result<Operation, OpAnswer>
        ensures { IsAllocated result (allocate_answer alg mode max_bits) }
    {
        let Some(algorithm) = algorithm_at(alg, mode) else {
            return Err(OpAnswer::NotSupported);
        };
        if !greatest_fits(algorithm, max_bits) {
            return Err(OpAnswer::NotSupported);
        }
        Ok(Operation {
            algorithm,
            max_bits,
            key: None,
            state: State::Initial,
        })
    }

    /// What it is, by numbers and sizes.
    pub fn info(&self) -> OpAbout
        ensures { (op : CryptoOperation) → Represents self.now op → result ≡ about_of op }
    {
        OpAbout {
            alg: self.algorithm.number(),
            mode: self.algorithm.mode(),
            max_bits: self.max_bits,
            key_bits: self.key_bits(),
            active: self.is_active(),
        }
    }

    /// Makes it initial. The key stays.
    ///
    /// # Errors
    ///
    /// Misuse exactly where the algorithm wants a key and there is none; nothing changes.
    pub fn reset(&mut self) -> Result<(), OpAnswer>
        ensures answer { (op : CryptoOperation) → Represents self.old op
            → result ≡ reset_answer op }
        ensures after { (op : CryptoOperation) → Represents self.old op
            → Represents self.new (after_ok result op (operation_at_start op)) }
    {
        if !self.algorithm.is_digest() && self.key.is_none() {
            return Err(OpAnswer::Misuse);
        }
        self.state = State::Initial;
        Ok(())
    }

    /// Gives it the key of this kind, usage and secret, in place of the one that it has. It takes no memory.
    ///
    /// # Errors
    ///
    /// Misuse exactly where it is a digest or active, the kind is another, the size doesn't fit the kind or is above
    /// the greatest, or the usage isn't that which the mode needs; nothing changes.
    pub fn set_key(&mut self, kind: u32, usage: u32, secret: &[u8]) -> Result<(), OpAnswer>
        ensures answer { (op : CryptoOperation) → Represents self.old op
            → result ≡ set_key_answer op kind usage secret.now }
        ensures after { (op : CryptoOperation) → Represents self.old op
            → Represents self.new (after_ok result op (with_key op secret.now)) }
    {
        if self.is_active() || !key_fits(self.algorithm, kind, secret) {
            return Err(OpAnswer::Misuse);
        }
        let key = Secret::from_slice(secret);
        if key.bits() > self.max_bits || usage & self.algorithm.usage_bit() == 0 {
            return Err(OpAnswer::Misuse);
        }
        self.key = Some(key);
        Ok(())
    }

    /// Takes its key away.
    ///
    /// # Errors
    ///
    /// Misuse exactly where it is a digest or active; nothing changes.
    pub fn clear_key(&mut self) -> Result<(), OpAnswer>
        ensures answer { (op : CryptoOperation) → Represents self.old op
            → result ≡ clear_key_answer op }
        ensures after { (op : CryptoOperation) → Represents self.old op
            → Represents self.new (after_ok result op (without_key op)) }
    {
        if self.algorithm.is_digest() || self.is_active() {
            return Err(OpAnswer::Misuse);
        }
        self.key = None;
        Ok(())
    }

    /// Whether its key may be set or taken away at all, whatever key comes: it is no digest and not active. Where it
    /// may not, `set_key` and `clear_key` are misuse.
    pub fn may_change_key(&self) -> bool
        ensures { (op : CryptoOperation) → Represents self.now op → result ≡ may_change_key op }
    {
        !self.algorithm.is_digest() && !self.is_active()
    }

    /// Takes key and state of another operation, so that both go on from the same message. It takes no memory.
    ///
    /// # Errors
    ///
    /// Misuse exactly where algorithm or mode differ, or the other's key is above the greatest size; nothing changes.
    pub fn copy_from(&mut self, from: &Operation) -> Result<(), OpAnswer>
        ensures answer { (to other : CryptoOperation) → Represents self.old to
            → Represents from.now other → result ≡ copy_answer to other }
        ensures after { (to other : CryptoOperation) → Represents self.old to
            → Represents from.now other
            → Represents self.new (after_ok result to (with_copy_of to other)) }
    {
        if !is_same(self.algorithm, from.algorithm) || from.key_bits() > self.max_bits {
            return Err(OpAnswer::Misuse);
        }
        self.key = from.key_copied();
        self.state = from.state.copied();
        Ok(())
    }

    fn is_active(&self) -> bool
        ensures { (op : CryptoOperation) → Represents self.now op → result ≡ is_active op.progress }
    {
        !matches!(self.state, State::Initial)
    }

    /// The size of its key in bits, 0 without one.
    fn key_bits(&self) -> u32
        ensures { result ≡ key_bits self.now.key }
    {
        match &self.key {
            Some(key) => key.bits(),
            None => 0,
        }
    }

    fn key_copied(&self) -> Option<Secret>
        ensures { result ≡ self.now.key }
    {
        match &self.key {
            Some(key) => Some(key.copy()),
            None => None,
        }
    }
}

/// Whether the greatest size in bits fits the algorithm's kind of key, if it has one.
fn greatest_fits(algorithm: Algorithm, max_bits: u32) -> bool
    ensures { result ≡ table.greatest_fits (table.key_kind algorithm) max_bits }
{
    match algorithm.key_kind() {
        Some(kind) => size_fits(kind, max_bits),
        None => true,
    }
}

/// Whether a key of this kind and secret serves the algorithm.
fn key_fits(algorithm: Algorithm, kind: u32, secret: &[u8]) -> bool
    ensures table { result ≡ table.key_fits (table.key_kind algorithm) kind (bits_of secret.now) }
    ensures small { OnTrue result (length secret.now ≤ MAX_SECRET_BYTES) }
{
    match algorithm.key_kind() {
        Some(own) => kind == own && secret_fits(own, secret),
        None => false,
    }
}

/// Whether the two are one algorithm and mode.
fn is_same(a: Algorithm, b: Algorithm) -> bool
    ensures { result ≡ is_same_algorithm a b }
{
    a.number() == b.number() && a.mode() == b.mode()
}
