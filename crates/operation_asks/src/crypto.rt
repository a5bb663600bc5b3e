//! The operations and the random stream of one application.

use crate::outcome::{CryptoOutcome, Outcome};
use crate::table::{self, Entry};
use app_api::{Answer, Ask};
use crypto_ops::Stream;
use std::alloc::Global;
use tee_base::{Bytes, NoMemory, limits};
use transient_obj::KeyLook;

/// The operations of all instances of an application, at most eight of each, and the random stream that these share.
#[derive(Drop)]
pub struct Crypto {
    operations: Vec<Entry>,
    random: Stream,
}

impl Crypto {
    ghost use Rattle.std.specs.Prelude.{◌≡◌, ℕ, IfOk, OnOk, OnErr};
    ghost use Rattle.crypto_ops.specs.Random.{random_from, stream_after};
    ghost use Rattle.operation_asks.specs.Asks.{CryptoState, no_operations, of_operations, of_random, random_effect, new_effect, free_effect, on_operation, copy_effect, resolution_in, set_key_resolution, set_key_effect, with_operations, operation_resolution, instance_ended};
    ghost use Rattle.operation_asks.specs.Effects.{effect_in};
    ghost use Rattle.operation_asks.specs.Represents.{Represents, IsResolution, IsEffect};

    /// No operations, and the stream of the application in this boot at its first word. It takes no memory.
    pub fn new(alloc: Global, seed: [u8; 32], application: u8, boot: u32) -> Crypto
        ensures { Represents result (no_operations seed application boot) }
    {
        Crypto {
            operations: Vec::new(alloc),
            random: Stream::new(seed, application, boot),
        }
    }

    /// Serves an ask of the instance about operations or random bytes. Where the answer rests on the key of an object,
    /// it says which, and `set_key` serves the rest. Any other ask isn't served here, and panics.
    ///
    /// # Errors
    ///
    /// NoMemory changes nothing, and takes no word of the random stream.
    #[tactic(auto, unfolding(crate::specs::Asks::operation_resolution))]
    pub fn serve(
        &mut self,
        alloc: Global,
        instance: u8,
        ask: &Ask,
    ) -> Result<CryptoOutcome, NoMemory>
        ensures served { (s : CryptoState) → Represents self.old s
            → IfOk result (λ told.
            IsResolution Represents told (operation_resolution s instance ask.now) s self.new) }
        ensures want { (s : CryptoState) → Represents self.old s
            → OnErr result (Represents self.new s) }
    {
        match ask {
            Ask::Random { count } => self.random(alloc, *count),
            Ask::OpNew {
                alg,
                mode,
                max_bits,
            } => self.create(instance, *alg, *mode, *max_bits),
            Ask::OpFree { op } => Ok(self.free(instance, *op)),
            Ask::OpInfo { op } => self.on_operation(alloc, instance, *op, ask),
            Ask::OpReset { op } => self.on_operation(alloc, instance, *op, ask),
            Ask::OpSetKey { op, object } => Ok(self.begin_set_key(instance, *op, *object)),
            Ask::OpCopy { to, from } => Ok(self.copy(instance, *to, *from)),
            Ask::CipherInit { op, .. } => self.on_operation(alloc, instance, *op, ask),
            Ask::CipherUpdate { op, .. } => self.on_operation(alloc, instance, *op, ask),
            Ask::CipherFinal { op, .. } => self.on_operation(alloc, instance, *op, ask),
            Ask::MacInit { op } => self.on_operation(alloc, instance, *op, ask),
            Ask::MacUpdate { op, .. } => self.on_operation(alloc, instance, *op, ask),
            Ask::MacFinal { op, .. } => self.on_operation(alloc, instance, *op, ask),
            Ask::MacCompare { op, .. } => self.on_operation(alloc, instance, *op, ask),
            Ask::DigestUpdate { op, .. } => self.on_operation(alloc, instance, *op, ask),
            Ask::DigestFinal { op, .. } => self.on_operation(alloc, instance, *op, ask),
            Ask::AeInit { op, .. } => self.on_operation(alloc, instance, *op, ask),
            Ask::AeAad { op, .. } => self.on_operation(alloc, instance, *op, ask),
            Ask::AeUpdate { op, .. } => self.on_operation(alloc, instance, *op, ask),
            Ask::AeSeal { op, .. } => self.on_operation(alloc, instance, *op, ask),
            Ask::AeOpen { op, .. } => self.on_operation(alloc, instance, *op, ask),
            _ => Ok(CryptoOutcome::Settled(Outcome::Panicked)),
        }
    }

    /// Serves the rest of an ask for a key, over what the object gives. It takes no memory.
    pub fn set_key(&mut self, instance: u8, op: u32, given: KeyLook) -> Outcome
        ensures { (s : CryptoState) → Represents self.old s
            → IsEffect Represents result
            (effect_in (with_operations s)
            (set_key_effect s.operations instance op given)) self.new }
    {
        table::set_key(&mut self.operations, instance, op, given)
    }

    /// The next bytes of the random stream, for a key that is generated. They take whole words; what the last one has
    /// over is dropped.
    ///
    /// # Errors
    ///
    /// NoMemory changes nothing, and takes no word.
    pub fn draw(&mut self, alloc: Global, count: u32) -> Result<Bytes, NoMemory>
        ensures bytes { (s : CryptoState) → Represents self.old s
            → IfOk result (λ bytes. bytes ≡ random_from s.random count) }
        ensures moved { (s : CryptoState) → Represents self.old s
            → OnOk result (Represents self.new
            (record s { random = stream_after s.random count })) }
        ensures want { (s : CryptoState) → Represents self.old s
            → OnErr result (Represents self.new s) }
    {
        self.random.take(alloc, count)
    }

    /// Ends all operations of the instance. It takes no memory.
    pub fn end_instance(&mut self, instance: u8)
        ensures { (s : CryptoState) → Represents self.old s
            → Represents self.new (instance_ended s instance) }
    {
        table::free_all(&mut self.operations, instance);
    }

    fn random(&mut self, alloc: Global, count: u32) -> Result<CryptoOutcome, NoMemory>
        ensures served { (s : CryptoState) → Represents self.old s
            → IfOk result (λ told.
            IsResolution Represents told (of_random s (random_effect s.random count)) s self.new) }
        ensures want { (s : CryptoState) → Represents self.old s
            → OnErr result (Represents self.new s) }
    {
        if count > limits::MAX_ASK_BYTES {
            return Ok(CryptoOutcome::Settled(Outcome::Panicked));
        }
        let bytes = self.random.take(alloc, count)?;
        Ok(CryptoOutcome::Settled(Outcome::Answered(Answer::Content(bytes))))
    }

    fn create(
        &mut self,
        instance: u8,
        alg: u32,
        mode: u32,
        max_bits: u32,
    ) -> Result<CryptoOutcome, NoMemory>
        ensures served { (s : CryptoState) → Represents self.old s
            → IfOk result (λ told.
            IsResolution Represents told (of_operations s
            (new_effect s.operations instance alg mode max_bits)) s self.new) }
        ensures want { (s : CryptoState) → Represents self.old s
            → OnErr result (Represents self.new s) }
    {
        let outcome = table::create(&mut self.operations, instance, alg, mode, max_bits)?;
        Ok(CryptoOutcome::Settled(outcome))
    }

    fn free(&mut self, instance: u8, op: u32) -> CryptoOutcome
        ensures { (s : CryptoState) → Represents self.old s
            → IsResolution Represents result
            (of_operations s (free_effect s.operations instance op)) s self.new }
    {
        CryptoOutcome::Settled(table::free(&mut self.operations, instance, op))
    }

    fn on_operation(
        &mut self,
        alloc: Global,
        instance: u8,
        op: u32,
        ask: &Ask,
    ) -> Result<CryptoOutcome, NoMemory>
        ensures served { (s : CryptoState) → Represents self.old s
            → IfOk result (λ told.
            IsResolution Represents told (of_operations s
            (on_operation s.operations instance op ask.now)) s self.new) }
        ensures want { (s : CryptoState) → Represents self.old s
            → OnErr result (Represents self.new s) }
    {
        let outcome = table::serve_one(alloc, &mut self.operations, instance, op, ask)?;
        Ok(CryptoOutcome::Settled(outcome))
    }

    fn copy(&mut self, instance: u8, to: u32, from: u32) -> CryptoOutcome
        ensures { (s : CryptoState) → Represents self.old s
            → IsResolution Represents result
            (of_operations s (copy_effect s.operations instance to from)) s self.new }
    {
        CryptoOutcome::Settled(table::copy(&mut self.operations, instance, to, from))
    }

    fn begin_set_key(&mut self, instance: u8, op: u32, object: u32) -> CryptoOutcome
        ensures { (s : CryptoState) → Represents self.old s
            → IsResolution Represents result
            (resolution_in (with_operations s)
            (set_key_resolution s.operations instance op object)) s self.new }
    {
        table::begin_set_key(&mut self.operations, instance, op, object)
    }
}
