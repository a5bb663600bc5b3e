//! Asks about keys in memory, and about the keys of persistent objects.

use super::rows::{
    AES, BAD, DATA, DONE, Do, EVERY, META, NOT_FOUND, PANICKED, PLAIN, Row, Told, UNSUPPORTED,
    assert_row, run, run_tables,
};
use object_asks::{Held, generate, key_of, random_wanted};
use std::alloc::Global;
use std::process::Abort;
use store_api::MapStore;
use tee_base::{NoMemory, keys};
use transient_obj::KeyLook;

const SEVENS: &[u8] = &[7; 24];

const HMAC: u32 = keys::KIND_HMAC_SHA256;

const NEW_AND_POPULATE: &[Row] = &[
    (1, Do::KeyNew(AES, 100), PLAIN, UNSUPPORTED),
    (1, Do::KeyNew(DATA, 128), PLAIN, UNSUPPORTED),
    (1, Do::KeyNew(AES, 256), PLAIN, Told::Number(1)),
    (
        1,
        Do::Info(1),
        PLAIN,
        Told::Object([AES, 0, 256, EVERY, 0, 0, 0]),
    ),
    (1, Do::KeyNew(AES, 128), PLAIN, Told::Number(2)),
    (1, Do::KeyPopulate(9, SEVENS), PLAIN, PANICKED),
    (1, Do::KeyPopulate(1, &[7; 15]), PLAIN, BAD),
    (1, Do::KeyPopulate(1, &[7; 20]), PLAIN, BAD),
    // more than the greatest size of this key
    (1, Do::KeyPopulate(2, SEVENS), PLAIN, BAD),
    (1, Do::KeyPopulate(1, SEVENS), PLAIN, DONE),
    (1, Do::KeyPopulate(1, SEVENS), PLAIN, PANICKED),
    (
        1,
        Do::Info(1),
        PLAIN,
        Told::Object([AES, 192, 256, EVERY, 0, 0, 0]),
    ),
    (1, Do::KeyReset(9), PLAIN, PANICKED),
    (1, Do::KeyRestrict(1, 3), PLAIN, DONE),
    (1, Do::KeyReset(1), PLAIN, DONE),
    (
        1,
        Do::Info(1),
        PLAIN,
        Told::Object([AES, 0, 256, EVERY, 0, 0, 0]),
    ),
    (1, Do::KeyPopulate(1, SEVENS), PLAIN, DONE),
    (1, Do::Create(1, META, b"k", 0, b""), PLAIN, Told::Number(3)),
    (1, Do::KeyPopulate(3, SEVENS), PLAIN, PANICKED),
    (1, Do::KeyReset(3), PLAIN, PANICKED),
];

const SECRET: &[Row] = &[
    (1, Do::KeyNew(AES, 256), PLAIN, Told::Number(1)),
    (1, Do::KeySecret(1, 99), PLAIN, PANICKED),
    (1, Do::KeySecret(9, 99), PLAIN, PANICKED),
    (1, Do::Create(1, META, b"k", 1, b""), PLAIN, PANICKED),
    (1, Do::KeyPopulate(1, SEVENS), PLAIN, DONE),
    (1, Do::KeySecret(1, 524_289), PLAIN, PANICKED),
    (1, Do::KeySecret(1, 23), PLAIN, Told::Short(24)),
    (1, Do::KeySecret(1, 24), PLAIN, Told::Bytes(SEVENS)),
    (
        1,
        Do::Create(1, META, b"k", 1, b"x"),
        PLAIN,
        Told::Number(2),
    ),
    (
        1,
        Do::Info(2),
        PLAIN,
        Told::Object([AES, 192, 192, EVERY, 1, 0, META]),
    ),
    (1, Do::KeySecret(2, 524_289), PLAIN, PANICKED),
    (1, Do::KeySecret(2, 23), PLAIN, Told::Short(24)),
    (1, Do::KeySecret(2, 24), PLAIN, Told::Bytes(SEVENS)),
    (1, Do::Create(1, META, b"d", 0, b""), PLAIN, Told::Number(3)),
    (1, Do::KeySecret(3, 99), PLAIN, NOT_FOUND),
    // not extractable, in memory and in the store
    (1, Do::KeyRestrict(1, 0xE), PLAIN, DONE),
    (1, Do::KeySecret(1, 99), PLAIN, PANICKED),
    (1, Do::Create(1, META, b"e", 1, b""), PLAIN, Told::Number(4)),
    (
        1,
        Do::Info(4),
        PLAIN,
        Told::Object([AES, 192, 192, 0xE, 0, 0, META]),
    ),
    (1, Do::KeySecret(4, 99), PLAIN, PANICKED),
    // of a persistent object
    (1, Do::Create(1, META, b"f", 2, b""), PLAIN, Told::Number(5)),
    (1, Do::KeySecret(5, 24), PLAIN, Told::Bytes(SEVENS)),
];

const COPY_AND_RESTRICT: &[Row] = &[
    (1, Do::KeyNew(AES, 256), PLAIN, Told::Number(1)),
    (1, Do::KeyNew(AES, 192), PLAIN, Told::Number(2)),
    // from one that isn't initialised, from none, and to none
    (1, Do::KeyCopy(2, 1), PLAIN, PANICKED),
    (1, Do::KeyCopy(2, 9), PLAIN, PANICKED),
    (1, Do::KeyPopulate(1, SEVENS), PLAIN, DONE),
    (1, Do::KeyCopy(9, 1), PLAIN, PANICKED),
    (1, Do::KeyRestrict(1, 7), PLAIN, DONE),
    (1, Do::KeyRestrict(1, 0xFF), PLAIN, DONE),
    (1, Do::KeyRestrict(9, 0xFF), PLAIN, PANICKED),
    (1, Do::KeyRestrict(2, 0xE), PLAIN, DONE),
    (1, Do::KeyCopy(2, 1), PLAIN, DONE),
    (
        1,
        Do::Info(2),
        PLAIN,
        Told::Object([AES, 192, 192, 6, 0, 0, 0]),
    ),
    (1, Do::KeyCopy(2, 1), PLAIN, PANICKED),
    // too small, and of another kind
    (1, Do::KeyNew(AES, 128), PLAIN, Told::Number(3)),
    (1, Do::KeyCopy(3, 1), PLAIN, PANICKED),
    (1, Do::KeyNew(HMAC, 1024), PLAIN, Told::Number(4)),
    (1, Do::KeyCopy(4, 1), PLAIN, PANICKED),
    // to a persistent object, and from one
    (1, Do::Create(1, META, b"k", 1, b""), PLAIN, Told::Number(5)),
    (1, Do::KeyCopy(5, 1), PLAIN, PANICKED),
    (1, Do::KeyRestrict(5, 1), PLAIN, UNSUPPORTED),
    (
        1,
        Do::Info(5),
        PLAIN,
        Told::Object([AES, 192, 192, 7, 0, 0, META]),
    ),
    (1, Do::KeyCopy(3, 5), PLAIN, PANICKED),
    (1, Do::KeyCopy(4, 5), PLAIN, PANICKED),
    (1, Do::KeyNew(AES, 256), PLAIN, Told::Number(6)),
    (1, Do::KeyRestrict(6, 0xD), PLAIN, DONE),
    (1, Do::KeyCopy(6, 5), PLAIN, DONE),
    (
        1,
        Do::Info(6),
        PLAIN,
        Told::Object([AES, 192, 256, 5, 0, 0, 0]),
    ),
    (1, Do::KeySecret(6, 24), PLAIN, Told::Bytes(SEVENS)),
];

#[test]
fn each_ask_about_keys(rt: HostRuntime) -> Result<(), NoMemory> {
    run_tables(
        &rt,
        rt.alloc(),
        &[NEW_AND_POPULATE, SECRET, COPY_AND_RESTRICT],
    )
}

/// Two keys in memory, the first initialised, and an object of each kind.
const OF_BOTH_SORTS: &[Row] = &[
    (1, Do::KeyNew(AES, 256), PLAIN, Told::Number(1)),
    (1, Do::KeyPopulate(1, SEVENS), PLAIN, DONE),
    (1, Do::KeyNew(AES, 192), PLAIN, Told::Number(2)),
    (1, Do::Create(1, META, b"k", 1, b""), PLAIN, Told::Number(3)),
    (1, Do::Create(1, META, b"d", 0, b""), PLAIN, Told::Number(4)),
];

/// An object, a number of bits, and how many random bytes a key of them takes. None is misuse.
const GENERATED: &[(u32, u32, Option<u32>)] = &[
    (1, 192, None),
    (2, 127, None),
    (2, 256, None),
    (3, 192, None),
    (9, 128, None),
    (2, 192, Some(24)),
    (2, 128, Some(16)),
];

/// An object, and the bits of the key that it gives to an operation.
const GIVEN: &[(u32, Option<usize>)] = &[
    (1, Some(192)),
    (2, Some(128)),
    (3, Some(192)),
    (4, Some(0)),
    (9, None),
];

/// The second key has been made of sixteen random bytes.
const MADE_OF_THREES: &[Row] = &[
    (1, Do::KeySecret(2, 16), PLAIN, Told::Bytes(&[3; 16])),
    (1, Do::KeyPopulate(2, SEVENS), PLAIN, PANICKED),
];

/// The bits of the key that the object gives.
fn bits_of(
    alloc: Global,
    held: &Held,
    store: &mut MapStore,
    object: u32,
) -> Result<Option<usize>, NoMemory> {
    let lent = key_of(alloc, held, store, 1, object)?;
    let bits = match &lent.found {
        KeyLook::Key(key) => Some(8 * key.secret.len()),
        _ => None,
    };
    drop(lent);
    Ok(bits)
}

/// Each key takes as many random bytes as are stated.
fn wants(rt: &impl Abort, held: &Held, stated: &[(u32, u32, Option<u32>)]) {
    for (place, (object, bits, wanted)) in stated.iter().enumerate() {
        let found = random_wanted(held, 1, *object, *bits);
        assert_row(rt, found == *wanted, place);
    }
}

fn generates(rt: &impl Abort, held: &mut Held) {
    wants(rt, held, GENERATED);
    assert!(rt; random_wanted(held, 1, 2, 128) == Some(16));
    generate(held, 1, 2, &[3; 16]);
}

/// Each object gives the key that is stated.
fn gives(
    rt: &impl Abort,
    alloc: Global,
    held: &Held,
    store: &mut MapStore,
    stated: &[(u32, Option<usize>)],
) -> Result<(), NoMemory> {
    for (place, (object, wanted)) in stated.iter().enumerate() {
        let bits = bits_of(alloc, held, store, *object)?;
        assert_row(rt, bits == *wanted, place);
    }
    Ok(())
}

/// The instance has ended.
const ENDED: &[Row] = &[
    (1, Do::Info(1), PLAIN, PANICKED),
    (1, Do::Info(3), PLAIN, PANICKED),
    (1, Do::Open(1, META, b"k"), PLAIN, Told::Number(1)),
];

fn generated_given_and_closed(
    rt: &impl Abort,
    alloc: Global,
    held: &mut Held,
    store: &mut MapStore,
) -> Result<(), NoMemory> {
    run(rt, alloc, held, store, OF_BOTH_SORTS)?;
    generates(rt, held);
    run(rt, alloc, held, store, MADE_OF_THREES)?;
    gives(rt, alloc, held, store, GIVEN)?;
    held.close_instance(1);
    run(rt, alloc, held, store, ENDED)
}

fn run_keys(rt: &impl Abort, alloc: Global, store: &mut MapStore) -> Result<(), NoMemory> {
    let mut held = Held::new(alloc);
    let ran = generated_given_and_closed(rt, alloc, &mut held, store);
    drop(held);
    ran
}

#[test]
fn random_keys_and_those_of_operations(rt: HostRuntime) -> Result<(), NoMemory> {
    let mut store = MapStore::new(rt.alloc(), &[])?;
    let ran = run_keys(&rt, rt.alloc(), &mut store);
    drop(store);
    ran
}
