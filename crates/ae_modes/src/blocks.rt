// Blocks of 16 bytes of a message that comes in pieces, and as numbers.

ghost use Rattle.std.specs.Prelude.{◌≡◌, []};
ghost use Rattle.aes_modes.specs.Modes.{number_of};
ghost use Rattle.ae_modes.specs.Waiting.{waiting_bytes};

use crate::waiting::Waiting;
use aes_modes::block_from;

/// No bytes.
pub(crate) fn none_waiting() -> Waiting
    ensures { waiting_bytes result ≡ [] }
{
    Waiting {
        bytes: [0; 16],
        count: 0,
    }
}

impl Waiting {
    ghost use Rattle.std.specs.Prelude.{◌≡◌, ◌+◌, ◌-◌, ◌*◌, ◌≤◌, ◌<◌, ◌∷◌, ◌++◌, length, take, drop, replicate};
    ghost use Rattle.aes_modes.specs.Modes.{block_at};
    ghost use Rattle.ae_modes.specs.Waiting.{waiting_bytes};

    /// Block `i` of what waits and the input after it.
    #[inline(always)]
    pub(crate) fn block(&self, input: &[u8], i: usize) -> [u8; 16]
        requires { 16 * i + 16 ≤ self.now.count + length input.now }
        ensures { result ≡ block_at (waiting_bytes self.now ++ input.now) i }
    {
        if i == 0 {
            let mut block = self.bytes;
            block[self.count..].copy_from_slice(&input[..16 - self.count]);
            block
        } else {
            block_from(input, 16 * i - self.count)
        }
    }

    /// What waits after the first blocks of what waited and of the input after it.
    pub(crate) fn after(&self, input: &[u8], blocks: usize) -> Waiting
        requires within { 16 * blocks ≤ self.now.count + length input.now }
        requires part { self.now.count + length input.now ≤ 16 * blocks + 16 }
        ensures { waiting_bytes result
            ≡ drop (16 * blocks) (waiting_bytes self.now ++ input.now) }
    {
        let count = self.count + input.len() - 16 * blocks;
        let bytes = self.bytes_after(input, blocks);
        Waiting { bytes, count }
    }

    /// What waits, filled to a block by a one bit and zeros.
    pub(crate) fn filled(&self) -> [u8; 16]
        requires { self.now.count < 16 }
        ensures { result
            ≡ waiting_bytes self.now ++ 0x80 ∷ replicate (15 - self.now.count) 0 }
    {
        let count = self.count;
        let mut block = [0; 16];
        block[..count].copy_from_slice(&self.bytes[..count]);
        block[count] = 0x80;
        block
    }

    fn bytes_after(&self, input: &[u8], blocks: usize) -> [u8; 16]
        requires within { 16 * blocks ≤ self.now.count + length input.now }
        requires part { self.now.count + length input.now ≤ 16 * blocks + 16 }
        ensures { take (self.now.count + length input.now - 16 * blocks) result
            ≡ drop (16 * blocks) (take self.now.count self.now.bytes ++ input.now) }
    {
        let mut bytes = self.bytes;
        if blocks == 0 {
            bytes[self.count..self.count + input.len()].copy_from_slice(input);
        } else {
            let rest = &input[16 * blocks - self.count..];
            bytes[..rest.len()].copy_from_slice(rest);
        }
        bytes
    }
}

/// The number of a block, highest byte first.
#[inline(always)]
#[tactic(auto, unfolding(aes_modes::specs::Modes::number_of))]
pub(crate) fn number_of_block(block: &[u8; 16]) -> u128
    ensures { result ≡ number_of block.now }
{
    u128::from_be_bytes(*block)
}
