//! Asks on one operation: one function for each (TEE Internal Core API 1.3, sections 6.2 to 6.6).

ghost use Rattle.std.specs.Prelude.{◌≡◌, IfOk, OnErr};
ghost use Rattle.crypto_ops.specs.Operations.{CryptoOperation};
ghost use Rattle.crypto_ops.specs.Represents.{Represents};
ghost use Rattle.operation_asks.specs.OneOperation.{info_effect, reset_effect, cipher_init_effect, cipher_update_effect, cipher_final_effect, mac_init_effect, mac_update_effect, mac_final_effect, mac_compare_effect, digest_update_effect, digest_final_effect, ae_init_effect, ae_aad_effect, ae_update_effect, ae_seal_effect, ae_open_effect, one_effect};
ghost use Rattle.operation_asks.specs.Represents.{IsEffect};

use crate::outcome::{Outcome, told_content, told_done, told_sealed};
use app_api::{Answer, Ask};
use crypto_ops::Operation;
use std::alloc::Global;
use tee_base::NoMemory;

fn info(operation: &Operation) -> Outcome
    ensures { (o : CryptoOperation) → Represents operation.now o
        → IsEffect Represents result (info_effect o) operation.now }
{
    let about = operation.info();
    Outcome::Answered(Answer::About {
        alg: about.alg,
        mode: about.mode,
        max_bits: about.max_bits,
        key_bits: about.key_bits,
        active: about.active,
    })
}

fn reset(operation: &mut Operation) -> Outcome
    ensures { (o : CryptoOperation) → Represents operation.old o
        → IsEffect Represents result (reset_effect o) operation.new }
{
    told_done(operation.reset())
}

fn cipher_init(operation: &mut Operation, iv: &[u8]) -> Outcome
    ensures { (o : CryptoOperation) → Represents operation.old o
        → IsEffect Represents result (cipher_init_effect o iv.now) operation.new }
{
    told_done(operation.cipher_init(iv))
}

fn cipher_update(
    alloc: Global,
    operation: &mut Operation,
    bytes: &[u8],
    room: u32,
) -> Result<Outcome, NoMemory>
    ensures served { (o : CryptoOperation) → Represents operation.old o
        → IfOk result (λ told.
        IsEffect Represents told (cipher_update_effect o bytes.now room) operation.new) }
    ensures want { (o : CryptoOperation) → Represents operation.old o
        → OnErr result (Represents operation.new o) }
{
    told_content(operation.cipher_update(alloc, bytes, room))
}

fn cipher_final(
    alloc: Global,
    operation: &mut Operation,
    bytes: &[u8],
    room: u32,
) -> Result<Outcome, NoMemory>
    ensures served { (o : CryptoOperation) → Represents operation.old o
        → IfOk result (λ told.
        IsEffect Represents told (cipher_final_effect o bytes.now room) operation.new) }
    ensures want { (o : CryptoOperation) → Represents operation.old o
        → OnErr result (Represents operation.new o) }
{
    told_content(operation.cipher_final(alloc, bytes, room))
}

fn mac_init(operation: &mut Operation) -> Outcome
    ensures { (o : CryptoOperation) → Represents operation.old o
        → IsEffect Represents result (mac_init_effect o) operation.new }
{
    told_done(operation.mac_init())
}

fn mac_update(operation: &mut Operation, bytes: &[u8]) -> Outcome
    ensures { (o : CryptoOperation) → Represents operation.old o
        → IsEffect Represents result (mac_update_effect o bytes.now) operation.new }
{
    told_done(operation.mac_update(bytes))
}

fn mac_final(
    alloc: Global,
    operation: &mut Operation,
    bytes: &[u8],
    room: u32,
) -> Result<Outcome, NoMemory>
    ensures served { (o : CryptoOperation) → Represents operation.old o
        → IfOk result (λ told.
        IsEffect Represents told (mac_final_effect o bytes.now room) operation.new) }
    ensures want { (o : CryptoOperation) → Represents operation.old o
        → OnErr result (Represents operation.new o) }
{
    told_content(operation.mac_final(alloc, bytes, room))
}

fn mac_compare(operation: &mut Operation, bytes: &[u8], mac: &[u8]) -> Outcome
    ensures { (o : CryptoOperation) → Represents operation.old o
        → IsEffect Represents result (mac_compare_effect o bytes.now mac.now) operation.new }
{
    told_done(operation.mac_compare(bytes, mac))
}

fn digest_update(operation: &mut Operation, bytes: &[u8]) -> Outcome
    ensures { (o : CryptoOperation) → Represents operation.old o
        → IsEffect Represents result (digest_update_effect o bytes.now) operation.new }
{
    told_done(operation.digest_update(bytes))
}

fn digest_final(
    alloc: Global,
    operation: &mut Operation,
    bytes: &[u8],
    room: u32,
) -> Result<Outcome, NoMemory>
    ensures served { (o : CryptoOperation) → Represents operation.old o
        → IfOk result (λ told.
        IsEffect Represents told (digest_final_effect o bytes.now room) operation.new) }
    ensures want { (o : CryptoOperation) → Represents operation.old o
        → OnErr result (Represents operation.new o) }
{
    told_content(operation.digest_final(alloc, bytes, room))
}

fn ae_init(operation: &mut Operation, nonce: &[u8], tag_bits: u32) -> Outcome
    ensures { (o : CryptoOperation) → Represents operation.old o
        → IsEffect Represents result (ae_init_effect o nonce.now tag_bits) operation.new }
{
    told_done(operation.ae_init(nonce, tag_bits))
}

fn ae_aad(operation: &mut Operation, bytes: &[u8]) -> Outcome
    ensures { (o : CryptoOperation) → Represents operation.old o
        → IsEffect Represents result (ae_aad_effect o bytes.now) operation.new }
{
    told_done(operation.ae_aad(bytes))
}

fn ae_update(
    alloc: Global,
    operation: &mut Operation,
    bytes: &[u8],
    room: u32,
) -> Result<Outcome, NoMemory>
    ensures served { (o : CryptoOperation) → Represents operation.old o
        → IfOk result (λ told.
        IsEffect Represents told (ae_update_effect o bytes.now room) operation.new) }
    ensures want { (o : CryptoOperation) → Represents operation.old o
        → OnErr result (Represents operation.new o) }
{
    told_content(operation.ae_update(alloc, bytes, room))
}

fn ae_seal(
    alloc: Global,
    operation: &mut Operation,
    bytes: &[u8],
    room: u32,
    tag_room: u32,
) -> Result<Outcome, NoMemory>
    ensures served { (o : CryptoOperation) → Represents operation.old o
        → IfOk result (λ told.
        IsEffect Represents told (ae_seal_effect o bytes.now room tag_room) operation.new) }
    ensures want { (o : CryptoOperation) → Represents operation.old o
        → OnErr result (Represents operation.new o) }
{
    told_sealed(operation.ae_seal(alloc, bytes, room, tag_room))
}

fn ae_open(
    alloc: Global,
    operation: &mut Operation,
    bytes: &[u8],
    room: u32,
    tag: &[u8],
) -> Result<Outcome, NoMemory>
    ensures served { (o : CryptoOperation) → Represents operation.old o
        → IfOk result (λ told.
        IsEffect Represents told (ae_open_effect o bytes.now room tag.now) operation.new) }
    ensures want { (o : CryptoOperation) → Represents operation.old o
        → OnErr result (Represents operation.new o) }
{
    told_content(operation.ae_open(alloc, bytes, room, tag))
}

/// An ask on one operation, which is this one. Any other ask isn't served here, and panics.
#[tactic(auto, unfolding(crate::specs::OneOperation::one_effect))]
pub fn serve(alloc: Global, operation: &mut Operation, ask: &Ask) -> Result<Outcome, NoMemory>
    ensures served { (o : CryptoOperation) → Represents operation.old o
        → IfOk result (λ told. IsEffect Represents told (one_effect o ask.now) operation.new) }
    ensures want { (o : CryptoOperation) → Represents operation.old o
        → OnErr result (Represents operation.new o) }
{
    match ask {
        Ask::OpInfo { .. } => Ok(info(operation)),
        Ask::OpReset { .. } => Ok(reset(operation)),
        Ask::CipherInit { iv, .. } => Ok(cipher_init(operation, iv.as_slice())),
        Ask::CipherUpdate { bytes, room, .. } => {
            cipher_update(alloc, operation, bytes.as_slice(), *room)
        }
        Ask::CipherFinal { bytes, room, .. } => {
            cipher_final(alloc, operation, bytes.as_slice(), *room)
        }
        Ask::MacInit { .. } => Ok(mac_init(operation)),
        Ask::MacUpdate { bytes, .. } => Ok(mac_update(operation, bytes.as_slice())),
        Ask::MacFinal { bytes, room, .. } => mac_final(alloc, operation, bytes.as_slice(), *room),
        Ask::MacCompare { bytes, mac, .. } => {
            Ok(mac_compare(operation, bytes.as_slice(), mac.as_slice()))
        }
        Ask::DigestUpdate { bytes, .. } => Ok(digest_update(operation, bytes.as_slice())),
        Ask::DigestFinal { bytes, room, .. } => {
            digest_final(alloc, operation, bytes.as_slice(), *room)
        }
        Ask::AeInit {
            nonce,
            tag_bits,
            ..
        } => Ok(ae_init(operation, nonce.as_slice(), *tag_bits)),
        Ask::AeAad { bytes, .. } => Ok(ae_aad(operation, bytes.as_slice())),
        Ask::AeUpdate { bytes, room, .. } => ae_update(alloc, operation, bytes.as_slice(), *room),
        Ask::AeSeal {
            bytes,
            room,
            tag_room,
            ..
        } => ae_seal(alloc, operation, bytes.as_slice(), *room, *tag_room),
        Ask::AeOpen {
            bytes,
            room,
            tag,
            ..
        } => ae_open(alloc, operation, bytes.as_slice(), *room, tag.as_slice()),
        _ => Ok(Outcome::Panicked),
    }
}
