//! Authentication codes by HMAC and by CMAC (TEE Internal Core API 1.3, section 6.5).

ghost use Rattle.std.specs.Prelude.{◌≡◌, ◌++◌, ℕ, List, not, Some, None, IfOk, IfErr, Err, if◌then◌else◌};
ghost use Rattle.std.specs.Str.{bytes_eq};
ghost use Rattle.ae_modes.specs.Cmac.{cmac};
ghost use Rattle.ae_modes.specs.Code.{HoldsMessage};
ghost use Rattle.mac_digest.specs.Hash.{digest_len};
ghost use Rattle.mac_digest.specs.Hmac.{hmac_of};
ghost use Rattle.mac_digest.specs.Mac.{HoldsKeyedMessage};
ghost use Rattle.crypto_ops.specs.Algorithms.{is_mac, code_len};
ghost use Rattle.crypto_ops.specs.Operations.{CryptoOperation, content_within, is_at_work, mac_of, mac_init_answer, mac_begun, mac_update_answer, with_more_message, mac_final_answer, mac_compare_answer, after_comparison, operation_at_start, after_ok, Answers};
ghost use Rattle.crypto_ops.specs.Represents.{Represents, Serves};

use crate::algorithm::Algorithm;
use crate::answer::OpAnswer;
use crate::operation::{Operation, State, is_too_much};
use ae_modes::Cmac;
use aes_core::expand;
use mac_digest::{Hash, Mac, Tag, hmac};
use std::alloc::Global;
use tee_base::Bytes;

/// A copy of the bytes.
fn copy_of(alloc: Global, bytes: &[u8]) -> Result<Bytes, OpAnswer>
    ensures ok { IfOk result (λ content. content ≡ bytes.now) }
    ensures err { IfErr result (λ answer. answer ≡ OpAnswer.NoMemory) }
{
    match Bytes::from_slice(alloc, bytes) {
        Ok(content) => Ok(content),
        Err(_) => Err(OpAnswer::NoMemory),
    }
}

/// The bytes of a code or a digest.
pub(crate) fn content_of(alloc: Global, tag: &Tag) -> Result<Bytes, OpAnswer>
    ensures ok { IfOk result (λ content. content ≡ tag.now) }
    ensures err { IfErr result (λ answer. answer ≡ OpAnswer.NoMemory) }
{
    copy_of(alloc, tag.as_slice())
}

/// The code of HMAC over the message and these bytes, where there is room for it.
fn hmac_after(
    alloc: Global,
    hash: Hash,
    mac: &Mac,
    bytes: &[u8],
    room: u32,
) -> Result<Bytes, OpAnswer>
    ensures { (key message : List ℕ) → HoldsKeyedMessage mac.now hash key message
        → Answers result (content_within room
        (digest_len hash) (hmac_of hash key (message ++ bytes.now))) }
{
    if hash.digest_len() > room as usize {
        return Err(OpAnswer::Short(hash.digest_len() as u32));
    }
    let mut last = mac.clone().unwrap();
    last.update(bytes);
    content_of(alloc, &last.finish())
}

/// The code of CMAC over the message and these bytes, where there is room for it.
fn cmac_after(alloc: Global, code: &Cmac, bytes: &[u8], room: u32) -> Result<Bytes, OpAnswer>
    ensures { (key message : List ℕ) → HoldsMessage code.now key message
        → Answers result (content_within room 16 (cmac key (message ++ bytes.now))) }
{
    if room < 16 {
        return Err(OpAnswer::Short(16));
    }
    let mut last = *code;
    last.update(bytes);
    copy_of(alloc, &last.finish())
}

impl State {
    /// Takes the last bytes of the message, and says whether this is the code of it; it doesn't where it is at work on no
    /// authentication code, and then nothing is taken.
    fn compares(&mut self, bytes: &[u8], mac: &[u8]) -> Option<bool>
        ensures answer { (op : CryptoOperation) → Serves self.old op
            → result ≡ (if is_at_work op is_mac then Some (bytes_eq mac.now (mac_of op bytes.now))
            else None) }
        ensures unchanged { result ≡ None → self.new ≡ self.old }
    {
        match self {
            State::Mac(own) => {
                own.update(bytes);
                Some(own.compare(mac))
            }
            State::Cmac(own) => {
                own.update(bytes);
                Some(own.compare(mac))
            }
            _ => None,
        }
    }
}

impl Operation {
    /// Begins a message of an authentication code. It takes no memory.
    ///
    /// # Errors
    ///
    /// Misuse exactly where it is no authentication code or has no key; nothing changes.
    pub fn mac_init(&mut self) -> Result<(), OpAnswer>
        ensures answer { (op : CryptoOperation) → Represents self.old op
            → result ≡ mac_init_answer op }
        ensures after { (op : CryptoOperation) → Represents self.old op
            → Represents self.new (after_ok result op (mac_begun op)) }
    {
        let Some(key) = &self.key else {
            return Err(OpAnswer::Misuse);
        };
        match self.algorithm {
            Algorithm::Mac(hash) => {
                self.state = State::Mac(hmac(hash, key.as_slice()));
                Ok(())
            }
            Algorithm::Cmac => {
                // A key that was set fits, so that never comes.
                let Ok(key) = expand(key.as_slice()) else {
                    return Err(OpAnswer::Misuse);
                };
                self.state = State::Cmac(Cmac::new(key));
                Ok(())
            }
            _ => Err(OpAnswer::Misuse),
        }
    }

    /// Takes more bytes of its message. It takes no memory.
    ///
    /// # Errors
    ///
    /// Misuse exactly where the bytes are above 524,288, it is no authentication code or not active; nothing changes.
    pub fn mac_update(&mut self, bytes: &[u8]) -> Result<(), OpAnswer>
        ensures answer { (op : CryptoOperation) → Represents self.old op
            → result ≡ mac_update_answer op bytes.now }
        ensures after { (op : CryptoOperation) → Represents self.old op
            → Represents self.new (after_ok result op (with_more_message op bytes.now)) }
    {
        if is_too_much(bytes.len()) {
            return Err(OpAnswer::Misuse);
        }
        match &mut self.state {
            State::Mac(mac) => {
                mac.update(bytes);
                Ok(())
            }
            State::Cmac(code) => {
                code.update(bytes);
                Ok(())
            }
            _ => Err(OpAnswer::Misuse),
        }
    }

    /// Takes the last bytes of its message, gives the code of it, and is then initial.
    ///
    /// # Errors
    ///
    /// Misuse exactly where bytes or room are above 524,288, it is no authentication code or not active; Short exactly
    /// where the code has more bytes than there is room for. Each error changes nothing.
    pub fn mac_final(&mut self, alloc: Global, bytes: &[u8], room: u32) -> Result<Bytes, OpAnswer>
        ensures answer { (op : CryptoOperation) → Represents self.old op
            → Answers result (mac_final_answer op bytes.now room) }
        ensures after { (op : CryptoOperation) → Represents self.old op
            → Represents self.new (after_ok result op (operation_at_start op)) }
    {
        if is_too_much(bytes.len()) || is_too_much(room as usize) {
            return Err(OpAnswer::Misuse);
        }
        let content = self.code_after(alloc, bytes, room)?;
        self.state = State::Initial;
        Ok(content)
    }

    /// The code of its message and these bytes, where there is room for it.
    fn code_after(&self, alloc: Global, bytes: &[u8], room: u32) -> Result<Bytes, OpAnswer>
        ensures { (op : CryptoOperation) → Represents self.now op
            → Answers result (if not (is_at_work op is_mac) then Err OpAnswer.Misuse
            else content_within room (code_len op.algorithm) (mac_of op bytes.now)) }
    {
        match (self.algorithm, &self.state) {
            (Algorithm::Mac(hash), State::Mac(mac)) => hmac_after(alloc, hash, mac, bytes, room),
            (_, State::Cmac(code)) => cmac_after(alloc, code, bytes, room),
            _ => Err(OpAnswer::Misuse),
        }
    }

    /// Takes the last bytes of its message, looks whether this is the code of it, and is then initial. It takes no memory.
    ///
    /// # Errors
    ///
    /// Misuse exactly where bytes or code are above 524,288, it is no authentication code or not active, which changes
    /// nothing; else MacInvalid exactly where the code is another, which leaves it initial.
    pub fn mac_compare(&mut self, bytes: &[u8], mac: &[u8]) -> Result<(), OpAnswer>
        ensures answer { (op : CryptoOperation) → Represents self.old op
            → result ≡ mac_compare_answer op bytes.now mac.now }
        ensures after { (op : CryptoOperation) → Represents self.old op
            → Represents self.new (after_comparison result op) }
    {
        if is_too_much(bytes.len()) || is_too_much(mac.len()) {
            return Err(OpAnswer::Misuse);
        }
        let Some(same) = self.state.compares(bytes, mac) else {
            return Err(OpAnswer::Misuse);
        };
        self.state = State::Initial;
        if same {
            Ok(())
        } else {
            Err(OpAnswer::MacInvalid)
        }
    }
}
