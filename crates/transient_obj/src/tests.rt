//! Each call once.
use crate::Transient;
use std::process::Abort;
use tee_base::keys;

const SECRET: [u8; 24] = [7; 24];

/// Whether a key has all usages and no secret.
fn is_empty(key: &Transient) -> bool {
    key.usage() == 0xFFFF_FFFF && key.secret().is_none()
}

/// Whether a key has this usage, and the secret.
fn has_secret(key: &Transient, usage: u32) -> bool {
    match key.secret() {
        Some(secret) => key.usage() == usage && secret.as_slice() == SECRET.as_slice(),
        None => false,
    }
}

/// Copies the secret of a key, and says whether it was taken.
fn copies(from: &Transient, to: &mut Transient) -> bool {
    match from.secret() {
        Some(secret) => to
            .copy_from(from.kind(), from.usage(), secret.as_slice())
            .is_ok(),
        None => false,
    }
}

#[test]
fn a_key_is_made_and_reset(rt: HostRuntime) {
    let mut key = Transient::allocate(keys::KIND_AES, 256).expect(&rt, "allocate");
    key.bounds();
    assert!(rt; (key.kind(), key.max_bits()) == (keys::KIND_AES, 256));
    assert!(rt; is_empty(&key));
    key.populate(&SECRET).expect(&rt, "populate");
    assert!(rt; has_secret(&key, 0xFFFF_FFFF));
    key.reset();
    assert!(rt; is_empty(&key));
}

#[test]
fn a_key_is_copied(rt: HostRuntime) {
    let mut key = Transient::allocate(keys::KIND_AES, 256).expect(&rt, "allocate");
    key.populate(&SECRET).expect(&rt, "populate");
    key.restrict(keys::USAGE_ENCRYPT | keys::USAGE_MAC);
    assert!(rt; has_secret(&key, 0xA));
    let mut other = Transient::allocate(keys::KIND_AES, 192).expect(&rt, "allocate");
    other.restrict(keys::USAGE_ENCRYPT | keys::USAGE_EXTRACTABLE);
    assert!(rt; copies(&key, &mut other) && has_secret(&other, 0x2));
}
