//! The operations of all instances, by their numbers: the asks that make, end, copy and use them.

ghost use Rattle.std.specs.Prelude.{ℕ, ◌≡◌, ◌≤◌, ◌<◌, ◌≢◌, ◌++◌, ◌∷◌, [], List, IfOk, OnErr, count_by, filter, map, not, position, length};
ghost use Rattle.tee_base.specs.declared.limits.TheConstants.{MAX_CRYPTO_OPERATIONS};
ghost use Rattle.tee_base.specs.Numbers.{lowest_free};
ghost use Rattle.operation_asks.specs.Table.{NumberedOperation, operation_at, all_freed};
ghost use Rattle.operation_asks.specs.Asks.{set_key_resolution, key_set, new_effect, free_effect, on_operation, copy_effect, set_key_effect};
ghost use Rattle.operation_asks.specs.Represents.{AreOperations, IsEffect, IsResolution, has_number, has_instance};

use crate::one;
use crate::outcome::{CryptoOutcome, Outcome, done, refused, told_done, told_refusal};
use app_api::{Answer, Ask};
use arrayvec::ArrayVec;
use crypto_ops::Operation;
use std::alloc::Global;
use tee_base::limits::MAX_CRYPTO_OPERATIONS;
use tee_base::{Code, NoMemory, find_lowest_free};
use transient_obj::{KeyLook, ObjectKey};

/// An operation with its instance and its number.
#[derive(Drop)]
pub struct Entry {
    pub instance: u8,
    pub number: u8,
    pub operation: Operation,
}

impl Entry {
    ghost use Rattle.std.specs.Prelude.{◌≡◌};
    ghost use Rattle.operation_asks.specs.Represents.{has_number};

    /// Whether it is the instance's operation of this number.
    fn is_at(&self, instance: u8, number: u32) -> bool
        ensures { result ≡ has_number instance number self.now }
    {
        self.instance == instance && u32::from(self.number) == number
    }
}

/// How many operations are of the instance.
fn count_of(entries: &[Entry], instance: u8) -> usize
    ensures { result ≡ count_by (has_instance instance) entries.now }
{
    entries.iter().filter(|e| e.instance == instance).count()
}

/// The place of the instance's operation of this number.
pub fn place_of(entries: &[Entry], instance: u8, number: u32) -> Option<usize>
    ensures { result ≡ position (has_number instance number) entries.now }
{
    entries.iter().position(|e| e.is_at(instance, number))
}

/// The lowest number of the instance that is free.
fn free_number(entries: &[Entry], instance: u8) -> u8
    requires { count_by (has_instance instance) entries.now ≤ MAX_CRYPTO_OPERATIONS }
    ensures { result ≡ lowest_free
        (map (λ e. e.number) (filter (has_instance instance) entries.now)) }
{
    let mut taken = ArrayVec::<u8, MAX_CRYPTO_OPERATIONS>::new();
    for entry in entries {
        if entry.instance == instance {
            taken.push(entry.number);
        }
    }
    find_lowest_free(taken.as_slice())
}

/// Makes an operation of the instance.
pub fn create(
    entries: &mut Vec<Entry>,
    instance: u8,
    alg: u32,
    mode: u32,
    max_bits: u32,
) -> Result<Outcome, NoMemory>
    ensures served { (os : List NumberedOperation) → AreOperations entries.old.items os
        → IfOk result (λ told.
        IsEffect AreOperations told (new_effect os instance alg mode max_bits) entries.new.items) }
    ensures want { OnErr result (entries.new.items ≡ entries.old.items) }
{
    let operation = match Operation::new(alg, mode, max_bits) {
        Ok(operation) => operation,
        Err(answer) => return Ok(told_refusal(answer)),
    };
    if count_of(entries.as_slice(), instance) >= MAX_CRYPTO_OPERATIONS {
        return Ok(refused(Code::BUSY));
    }
    let number = free_number(entries.as_slice(), instance);
    entries.push(Entry {
        instance,
        number,
        operation,
    })?;
    Ok(Outcome::Answered(Answer::Number(u32::from(number))))
}

/// Takes out the instance's operation of this number.
fn take_out(entries: &mut Vec<Entry>, instance: u8, number: u32)
    ensures { entries.new.items
        ≡ filter (λ e. not (has_number instance number e)) entries.old.items }
{
    entries.retain(|e| !e.is_at(instance, number));
}

/// Ends an operation of the instance.
pub fn free(entries: &mut Vec<Entry>, instance: u8, number: u32) -> Outcome
    ensures { (os : List NumberedOperation) → AreOperations entries.old.items os
        → IsEffect AreOperations result (free_effect os instance number) entries.new.items }
{
    if number == 0 {
        return done();
    }
    let Some(_place) = place_of(entries.as_slice(), instance, number) else {
        return Outcome::Panicked;
    };
    take_out(entries, instance, number);
    done()
}

/// Ends all operations of the instance.
pub fn free_all(entries: &mut Vec<Entry>, instance: u8)
    ensures { (os : List NumberedOperation) → AreOperations entries.old.items os
        → AreOperations entries.new.items (all_freed os instance) }
{
    entries.retain(|e| e.instance != instance);
}

/// Serves an ask on the instance's operation of this number.
pub fn serve_one(
    alloc: Global,
    entries: &mut Vec<Entry>,
    instance: u8,
    number: u32,
    ask: &Ask,
) -> Result<Outcome, NoMemory>
    ensures served { (os : List NumberedOperation) → AreOperations entries.old.items os
        → IfOk result (λ told.
        IsEffect AreOperations told (on_operation os instance number ask.now) entries.new.items) }
    ensures want { (os : List NumberedOperation) → AreOperations entries.old.items os
        → OnErr result (AreOperations entries.new.items os) }
{
    let Some(place) = place_of(entries.as_slice(), instance, number) else {
        return Ok(Outcome::Panicked);
    };
    one::serve(alloc, &mut entries[place].operation, ask)
}

/// Gives an operation of the instance key and state of another, or of itself.
pub fn copy(entries: &mut Vec<Entry>, instance: u8, to: u32, from: u32) -> Outcome
    ensures { (os : List NumberedOperation) → AreOperations entries.old.items os
        → IsEffect AreOperations result (copy_effect os instance to from) entries.new.items }
{
    let Some(target) = place_of(entries.as_slice(), instance, to) else {
        return Outcome::Panicked;
    };
    let Some(source) = place_of(entries.as_slice(), instance, from) else {
        return Outcome::Panicked;
    };
    if target == source {
        return done();
    }
    copy_between(entries.as_mut_slice(), target, source)
}

/// Gives the operation at one place key and state of that at another.
fn copy_between(entries: &mut [Entry], target: usize, source: usize) -> Outcome
    requires target { target < length entries.old }
    requires source { source < length entries.old }
    requires apart { target ≢ source }
    ensures { (os : List NumberedOperation) (instance to from : ℕ)
        → AreOperations entries.old os
        → position (has_number instance to) entries.old ≡ Some target
        → position (has_number instance from) entries.old ≡ Some source
        → IsEffect AreOperations result (copy_effect os instance to from) entries.new }
{
    if target < source {
        let (front, back) = entries.split_at_mut(source);
        told_done(front[target].operation.copy_from(&back[0].operation))
    } else {
        let (front, back) = entries.split_at_mut(target);
        told_done(back[0].operation.copy_from(&front[source].operation))
    }
}

/// Takes the key of the instance's operation away, or says that the key of the object decides.
pub fn begin_set_key(entries: &mut Vec<Entry>, instance: u8, op: u32, object: u32) -> CryptoOutcome
    ensures { (os : List NumberedOperation) → AreOperations entries.old.items os
        → IsResolution AreOperations result
        (set_key_resolution os instance op object) os entries.new.items }
{
    let Some(place) = place_of(entries.as_slice(), instance, op) else {
        return CryptoOutcome::Settled(Outcome::Panicked);
    };
    if !entries[place].operation.may_change_key() {
        return CryptoOutcome::Settled(Outcome::Panicked);
    }
    if object != 0 {
        return CryptoOutcome::WantsKey { op, object };
    }
    CryptoOutcome::Settled(told_done(entries[place].operation.clear_key()))
}

/// Gives the instance's operation this key.
fn take_key(entries: &mut Vec<Entry>, instance: u8, op: u32, key: &ObjectKey) -> Outcome
    ensures { (os : List NumberedOperation) → AreOperations entries.old.items os
        → IsEffect AreOperations result
        (key_set os instance op key.now (operation_at os instance op)) entries.new.items }
{
    let Some(place) = place_of(entries.as_slice(), instance, op) else {
        return Outcome::Panicked;
    };
    let secret = key.secret.as_slice();
    told_done(
        entries[place]
            .operation
            .set_key(key.kind, key.usage, secret),
    )
}

/// Gives the instance's operation the key that an object gives.
pub fn set_key(entries: &mut Vec<Entry>, instance: u8, op: u32, given: KeyLook) -> Outcome
    ensures { (os : List NumberedOperation) → AreOperations entries.old.items os
        → IsEffect AreOperations result
        (set_key_effect os instance op given) entries.new.items }
{
    match given {
        KeyLook::Key(key) => take_key(entries, instance, op, &key),
        KeyLook::NoKey => Outcome::Panicked,
        KeyLook::Refused(code) => refused(code),
    }
}
