//! Digests (TEE Internal Core API 1.3, section 6.3).

ghost use Rattle.std.specs.Prelude.{◌≡◌, true};
ghost use Rattle.mac_digest.specs.Digester.{HoldsMessage};
ghost use Rattle.crypto_ops.specs.Algorithms as table;
ghost use Rattle.crypto_ops.specs.Operations.{CryptoOperation, message_of, digest_update_answer, with_more_message, digest_final_answer, operation_at_start, after_ok, Answers};
ghost use Rattle.crypto_ops.specs.Represents.{Represents};

use crate::algorithm::Algorithm;
use crate::answer::OpAnswer;
use crate::mac::content_of;
use crate::operation::{Operation, State, is_too_much};
use mac_digest::{Digester, Hash, digest};
use std::alloc::Global;
use tee_base::Bytes;

impl Operation {
    /// Takes more bytes of a digest's message, and is then active. It takes no memory.
    ///
    /// # Errors
    ///
    /// Misuse exactly where the bytes are above 524,288 or it is no digest; nothing changes.
    pub fn digest_update(&mut self, bytes: &[u8]) -> Result<(), OpAnswer>
        ensures answer { (op : CryptoOperation) → Represents self.old op
            → result ≡ digest_update_answer op bytes.now }
        ensures after { (op : CryptoOperation) → Represents self.old op
            → Represents self.new (after_ok result op (with_more_message op bytes.now)) }
    {
        let Algorithm::Digest(hash) = self.algorithm else {
            return Err(OpAnswer::Misuse);
        };
        if is_too_much(bytes.len()) {
            return Err(OpAnswer::Misuse);
        }
        let mut digester = self.digester(hash);
        digester.update(bytes);
        self.state = State::Digest(digester);
        Ok(())
    }

    /// Takes the last bytes of a digest's message, gives the digest of it, and is then initial.
    ///
    /// # Errors
    ///
    /// Misuse exactly where bytes or room are above 524,288 or it is no digest; Short exactly where the digest has more
    /// bytes than there is room for. Each error changes nothing.
    pub fn digest_final(
        &mut self,
        alloc: Global,
        bytes: &[u8],
        room: u32,
    ) -> Result<Bytes, OpAnswer>
        ensures answer { (op : CryptoOperation) → Represents self.old op
            → Answers result (digest_final_answer op bytes.now room) }
        ensures after { (op : CryptoOperation) → Represents self.old op
            → Represents self.new (after_ok result op (operation_at_start op)) }
    {
        let Algorithm::Digest(hash) = self.algorithm else {
            return Err(OpAnswer::Misuse);
        };
        if is_too_much(bytes.len()) || is_too_much(room as usize) {
            return Err(OpAnswer::Misuse);
        }
        if hash.digest_len() > room as usize {
            return Err(OpAnswer::Short(hash.digest_len() as u32));
        }
        let mut last = self.digester(hash);
        last.update(bytes);
        let content = content_of(alloc, &last.finish())?;
        self.state = State::Initial;
        Ok(content)
    }

    /// A digester that has taken the message so far.
    fn digester(&self, hash: Hash) -> Digester
        ensures { (op : CryptoOperation) → Represents self.now op
            → op.algorithm ≡ Algorithm.Digest hash
            → HoldsMessage result hash (message_of op.progress) }
    {
        match &self.state {
            State::Digest(digester) => digester.clone().unwrap(),
            _ => digest(hash),
        }
    }
}
