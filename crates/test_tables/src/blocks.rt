//! The blocks of memory that clients share: rows by hand, each call and each answer.

use app_api::Param;
use shared_mem::{BlockAnswer, Blocks};
use std::process::Abort;
use tee_base::Code;

/// A refusal with this code.
fn refused(code: Code) -> Result<(), BlockAnswer> {
    Err(BlockAnswer::Refused(code))
}

/// Whether the client's block has these bytes.
fn shows(blocks: &Blocks, client: u8, block: u32, bytes: &[u8]) -> bool {
    match blocks.show(client, block) {
        Ok(shown) => shown.as_slice() == bytes,
        Err(_) => false,
    }
}

/// So many bytes of a block from a place on, as an input (1), an output (2) or both (3).
fn part(block: u32, way: u8, at: u32, size: u32) -> Param {
    Param::Part {
        block,
        way,
        at,
        size,
    }
}

#[test]
fn blocks_are_shared_and_filled(rt: HostRuntime) {
    let mut blocks = Blocks::new(rt.alloc());
    assert!(rt; blocks.share(0, 1, 3, 8).is_ok());
    assert!(rt; shows(&blocks, 0, 1, [0; 8].as_slice()));
    for (flags, size) in [(0, 8), (4, 8), (3, 524_289)] {
        assert!(rt; blocks.share(0, 2, flags, size) == refused(Code::BAD_PARAMETERS));
    }
    assert!(rt; blocks.share(0, 1, 0, 8) == refused(Code::BAD_PARAMETERS));
    assert!(rt; blocks.share(0, 1, 3, 8) == refused(Code::BAD_STATE));
    assert!(rt; blocks.fill(0, 1, 6, b"AB").is_ok());
    assert!(rt; blocks.fill(0, 1, 7, b"CD") == refused(Code::EXCESS_DATA));
    assert!(rt; blocks.fill(0, 2, 0, b"CD") == refused(Code::ITEM_NOT_FOUND));
    assert!(rt; blocks.fill(1, 1, 0, b"CD") == refused(Code::ITEM_NOT_FOUND));
    assert!(rt; shows(&blocks, 0, 1, b"\0\0\0\0\0\0AB"));
    assert!(rt; blocks.show(1, 1).is_err());
    assert!(rt; blocks.unshare(1, 1, true) == refused(Code::ITEM_NOT_FOUND));
    assert!(rt; blocks.unshare(0, 1, true) == refused(Code::BUSY));
    assert!(rt; blocks.unshare(0, 1, false).is_ok());
    assert!(rt; blocks.show(0, 1).is_err());
}

#[test]
fn each_client_has_eight_blocks(rt: HostRuntime) {
    let mut blocks = Blocks::new(rt.alloc());
    for client in 0..8u8 {
        for block in 0..8u32 {
            assert!(rt; blocks.share(client, block, 1, 1).is_ok());
        }
        assert!(rt; blocks.share(client, 8, 1, 1) == refused(Code::BUSY));
        assert!(rt; blocks.share(client, 7, 1, 1) == refused(Code::BAD_STATE));
    }
    assert!(rt; blocks.fill(3, 5, 0, b"x").is_ok());
    assert!(rt; shows(&blocks, 3, 5, b"x") && shows(&blocks, 4, 5, b"\0"));
    assert!(rt; blocks.unshare(3, 0, false).is_ok());
    assert!(rt; blocks.share(3, 8, 1, 0).is_ok());
    assert!(rt; shows(&blocks, 3, 8, b"") && shows(&blocks, 3, 5, b"x"));
}

#[test]
fn references_are_checked(rt: HostRuntime) {
    let mut blocks = Blocks::new(rt.alloc());
    assert!(rt; blocks.share(0, 1, 1, 8).is_ok() && blocks.share(0, 2, 2, 8).is_ok());
    let rows = [
        (Param::Whole(1), Ok(())),
        (Param::Whole(3), refused(Code::ITEM_NOT_FOUND)),
        (part(1, 1, 8, 0), Ok(())),
        (part(1, 1, 6, 3), refused(Code::BAD_PARAMETERS)),
        (part(1, 1, u32::MAX, 1), refused(Code::BAD_PARAMETERS)),
        (part(1, 2, 0, 8), refused(Code::BAD_PARAMETERS)),
        (part(1, 3, 0, 8), refused(Code::BAD_PARAMETERS)),
        (part(2, 2, 0, 8), Ok(())),
        (part(2, 3, 0, 8), refused(Code::BAD_PARAMETERS)),
        (part(3, 3, 9, 9), refused(Code::ITEM_NOT_FOUND)),
        (part(3, 4, 0, 0), refused(Code::ITEM_NOT_FOUND)),
        (part(1, 0, 0, 0), refused(Code::BAD_PARAMETERS)),
        (part(1, 4, 0, 0), refused(Code::BAD_PARAMETERS)),
        (Param::ValueIn(1, 2), Ok(())),
    ];
    for (reference, answer) in rows {
        assert!(rt; blocks.check(0, &reference) == answer);
    }
    assert!(rt; blocks.check(1, &Param::Whole(1)) == refused(Code::ITEM_NOT_FOUND));
}

/// What an application is given for a reference: its kind, its size and its bytes, where it is given any.
fn given(blocks: &Blocks, client: u8, reference: &Param) -> (u8, usize, bool) {
    if blocks.check(client, reference).is_err() {
        return (0, 0, false);
    }
    match blocks.resolve(client, reference) {
        Ok(param) => (param.kind(), param.size(), holds(&param, b"llo")),
        Err(_) => (0, 0, false),
    }
}

/// Whether the parameter has these bytes.
fn holds(param: &Param, bytes: &[u8]) -> bool {
    match param {
        Param::MemIn(given) | Param::MemInOut(given) => given.as_slice() == bytes,
        _ => false,
    }
}

/// Puts bytes through a reference with an output that has room for them.
fn deliver(blocks: &mut Blocks, client: u8, reference: &Param, bytes: &[u8]) -> bool {
    if blocks.check(client, reference).is_err() {
        return false;
    }
    let Ok(Param::MemOut(room)) = blocks.resolve(client, reference) else {
        return false;
    };
    if bytes.len() > room as usize {
        return false;
    }
    blocks.put(client, reference, bytes);
    true
}

#[test]
fn references_become_memory(rt: HostRuntime) {
    let mut blocks = Blocks::new(rt.alloc());
    assert!(rt; blocks.share(0, 1, 1, 3).is_ok() && blocks.share(0, 2, 2, 8).is_ok());
    assert!(rt; blocks.share(0, 3, 3, 5).is_ok() && blocks.share(1, 3, 3, 5).is_ok());
    assert!(rt; blocks.fill(0, 1, 0, b"llo").is_ok() && blocks.fill(0, 3, 0, b"hello").is_ok());
    assert!(rt; given(&blocks, 0, &Param::Whole(1)) == (5, 3, true));
    assert!(rt; given(&blocks, 0, &Param::Whole(2)) == (6, 8, false));
    assert!(rt; given(&blocks, 0, &Param::Whole(3)) == (7, 5, false));
    assert!(rt; given(&blocks, 0, &part(3, 1, 2, 3)) == (5, 3, true));
    assert!(rt; given(&blocks, 0, &part(3, 2, 2, 3)) == (6, 3, false));
    assert!(rt; given(&blocks, 0, &part(3, 3, 2, 3)) == (7, 3, true));
    assert!(rt; given(&blocks, 1, &part(3, 3, 2, 3)) == (7, 3, false));
}

#[test]
fn deliveries_are_written(rt: HostRuntime) {
    let mut blocks = Blocks::new(rt.alloc());
    assert!(rt; blocks.share(0, 1, 3, 8).is_ok() && blocks.share(0, 2, 2, 2).is_ok());
    assert!(rt; deliver(&mut blocks, 0, &part(1, 2, 2, 4), b"ello"));
    assert!(rt; shows(&blocks, 0, 1, b"\0\0ello\0\0"));
    assert!(rt; deliver(&mut blocks, 0, &part(1, 2, 2, 4), b"a"));
    assert!(rt; shows(&blocks, 0, 1, b"\0\0allo\0\0") && shows(&blocks, 0, 2, b"\0\0"));
    assert!(rt; deliver(&mut blocks, 0, &Param::Whole(2), b"xy"));
    assert!(rt; shows(&blocks, 0, 2, b"xy") && shows(&blocks, 0, 1, b"\0\0allo\0\0"));
}
