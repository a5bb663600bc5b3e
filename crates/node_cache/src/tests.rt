//! One cache through all of its calls.

use crate::NodeCache;
use std::num::NonZeroUsize;

const TAG: [u8; 32] = [1; 32];

const OTHER_TAG: [u8; 32] = [2; 32];

/// Whether a node of such bytes is kept at a place under a tag.
fn keeps(cache: &NodeCache, place: u64, tag: &[u8; 32], byte: u8) -> bool {
    match cache.peek(place, tag) {
        Some(node) => *node == [byte; 1024],
        None => false,
    }
}

#[test]
fn keeps_the_nodes_used_last(rt: HostRuntime) {
    let two = NonZeroUsize::new(2).unwrap();
    let mut cache = NodeCache::new(rt.alloc(), two).expect(&rt, "cache");
    cache.put(3, &TAG, &[30; 1024]);
    cache.put(4, &TAG, &[40; 1024]);
    assert!(rt; keeps(&cache, 3, &TAG, 30) && keeps(&cache, 4, &TAG, 40));
    assert!(rt; cache.peek(3, &OTHER_TAG).is_none());
    cache.touch(3);
    cache.put(5, &TAG, &[50; 1024]);
    assert!(rt; keeps(&cache, 3, &TAG, 30) && keeps(&cache, 5, &TAG, 50));
    assert!(rt; cache.peek(4, &TAG).is_none());
    cache.put(3, &OTHER_TAG, &[31; 1024]);
    assert!(rt; keeps(&cache, 3, &OTHER_TAG, 31) && cache.peek(3, &TAG).is_none());
    cache.clear();
    assert!(rt; cache.peek(3, &OTHER_TAG).is_none() && cache.peek(5, &TAG).is_none());
}
