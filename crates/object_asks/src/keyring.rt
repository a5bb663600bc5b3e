//! The keys of all instances, each read or changed by one scan.

ghost use Rattle.std.specs.Prelude.{◌≡◌, ◌++◌, ◌∷◌, [], OnOk, OnErr, filter, find, not, option_map, position};
ghost use Rattle.handle_table.specs.Handles.{change_first};
ghost use Rattle.object_asks.specs.Held.{is_key_at, is_key_of, with_key};
ghost use Rattle.object_asks.specs.Sources.{memory_source};

use crate::numbered::NumberedKey;
use crate::source::KeySource;
use tee_base::NoMemory;
use transient_obj::{ObjectKey, Transient};

/// The instance's key of this number.
pub fn key_of(keys: &[NumberedKey], instance: u8, number: u32) -> Option<&Transient>
    ensures { option_map (λ key. key.now) result
        ≡ option_map (λ k. k.key) (find (is_key_at instance number) keys.now) }
{
    keys.iter()
        .find(|k| k.is_at(instance, number))
        .map(|k| &k.key)
}

/// What a key in memory gives, if there is one and it is initialised.
pub fn memory_source(key: Option<&Transient>) -> KeySource
    ensures { result ≡ memory_source (option_map (λ key. key.now) key.entry) }
{
    let Some(key) = key else {
        return KeySource::NoKey;
    };
    let Some(secret) = key.secret() else {
        return KeySource::NoKey;
    };
    KeySource::InMemory(ObjectKey {
        kind: key.kind(),
        usage: key.usage(),
        secret: secret.copy(),
    })
}

/// Adds a key. Want of memory changes nothing.
pub fn add(
    keys: &mut Vec<NumberedKey>,
    instance: u8,
    number: u32,
    key: Transient,
) -> Result<(), NoMemory>
    ensures ok { OnOk result (keys.new.items ≡ keys.old.items
        ++ record { instance = instance; number = number; key = key } ∷ []) }
    ensures unchanged { OnErr result (keys.new.items ≡ keys.old.items) }
{
    keys.push(NumberedKey {
        instance,
        number,
        key,
    })?;
    Ok(())
}

/// The place of the instance's key of this number.
fn place_of(keys: &[NumberedKey], instance: u8, number: u32) -> Option<usize>
    ensures { result ≡ position (is_key_at instance number) keys.now }
{
    keys.iter().position(|k| k.is_at(instance, number))
}

/// The instance's key of this number is this one from now on.
pub fn set(keys: &mut Vec<NumberedKey>, instance: u8, number: u32, key: Transient)
    ensures { keys.new.items
        ≡ change_first (is_key_at instance number) (with_key key) keys.old.items }
{
    if let Some(place) = place_of(keys.as_slice(), instance, number) {
        keys[place].key = key;
    }
}

/// Takes out the instance's key of this number.
pub fn take_key(keys: &mut Vec<NumberedKey>, instance: u8, number: u32)
    ensures { keys.new.items ≡ filter (λ k. not (is_key_at instance number k)) keys.old.items }
{
    keys.retain(|k| !k.is_at(instance, number));
}

/// Takes out all keys of the instance.
pub fn take_keys(keys: &mut Vec<NumberedKey>, instance: u8)
    ensures { keys.new.items ≡ filter (λ k. not (is_key_of instance k)) keys.old.items }
{
    keys.retain(|k| k.instance != instance);
}
