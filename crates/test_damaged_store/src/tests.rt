//! What the calls answer, one after the other.

use crate::{Damaged, Meets};
use std::process::Abort;
use store_api::{AppStore, StoreAnswer};

#[test]
fn damage_as_it_is_named(rt: HostRuntime) {
    let mut store = Damaged::new(Some(Meets::OtherTag), Some(Meets::BrokenRule), None);
    assert!(rt; matches!(store.find(b"a").err(), Some(StoreAnswer::Corrupt(_))));
    assert!(rt; matches!(store.find(b"a").err(), Some(StoreAnswer::Garbled(5))));
    for _ in 0..2 {
        assert!(rt; matches!(store.find(b"a").err(), Some(StoreAnswer::NotFound)));
    }
    let mut always = Damaged::always(Meets::BrokenRule);
    for _ in 0..4 {
        assert!(rt; matches!(always.find(b"a").err(), Some(StoreAnswer::Garbled(5))));
    }
    assert_eq!(rt; always.faults(), 0);
}
