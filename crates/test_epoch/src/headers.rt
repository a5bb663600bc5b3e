use crate::counters::counter_behind;
use board::{BLOCK, Board, BoardFailed};
use boards::MemBoard;
use epoch::{
    Format, Header, OpenAnswer, TreeEntry, entry_at, entry_bytes, find_header, flip, lay, shut,
};
use std::alloc::Global;
use std::process::Abort;
use std::test::Fail;

/// A format whose one version is 0.
const FORMAT: Format = Format {
    oldest: 0,
    newest: 0,
    blocks: 8_742,
};

/// The board's key: the bytes from 0 to 31.
const KEY: [u8; 32] = [
    0x00, 0x01, 0x02, 0x03, 0x04, 0x05, 0x06, 0x07, 0x08, 0x09, 0x0a, 0x0b, 0x0c, 0x0d, 0x0e, 0x0f,
    0x10, 0x11, 0x12, 0x13, 0x14, 0x15, 0x16, 0x17, 0x18, 0x19, 0x1a, 0x1b, 0x1c, 0x1d, 0x1e, 0x1f,
];

/// The tag of the root: the bytes from 64 to 95.
const ROOT_TAG: [u8; 32] = [
    0x40, 0x41, 0x42, 0x43, 0x44, 0x45, 0x46, 0x47, 0x48, 0x49, 0x4a, 0x4b, 0x4c, 0x4d, 0x4e, 0x4f,
    0x50, 0x51, 0x52, 0x53, 0x54, 0x55, 0x56, 0x57, 0x58, 0x59, 0x5a, 0x5b, 0x5c, 0x5d, 0x5e, 0x5f,
];

/// A sealed block's entry.
const SEALED: TreeEntry = TreeEntry {
    copy: 1,
    sequence: 5,
    iv: [
        0xdf, 0xd9, 0x3c, 0xd0, 0x81, 0xdc, 0x19, 0xe3, 0xaf, 0x13, 0x1b, 0xe5, 0x9e, 0xd0, 0x58,
        0x14,
    ],
    tag: [
        0x5e, 0x42, 0x63, 0x82, 0x61, 0x50, 0xbd, 0x4f, 0x48, 0xbd, 0x32, 0x6f, 0xb3, 0x99, 0x2a,
        0x5a, 0x79, 0x93, 0x39, 0xbc, 0x6c, 0x89, 0x77, 0x57, 0x5b, 0xaa, 0xa0, 0x9c, 0x97, 0x7c,
        0x19, 0xab,
    ],
};

/// And its bytes.
const ENTRY: &str = concat!(
    "01000000000000000500000000000000",
    "dfd93cd081dc19e3af131be59ed05814",
    "5e4263826150bd4f48bd326fb3992a5a799339bc6c8977575baaa09c977c19ab",
);

/// The header of version 0 and sequence 5, up to its tag.
const TOLD: &str = concat!(
    "544545564f4c554d00000000000000000500000000000000",
    "01000000000000000500000000000000",
    "00000000000000000000000000000000",
    "404142434445464748494a4b4c4d4e4f505152535455565758595a5b5c5d5e5f",
    "0db6df6ad84d800f073136ee529a49b546e8057b5ef716c8f783baa807ae5b6c",
);

/// The tag of that header.
const KEPT: [u8; 32] = [
    0x0d, 0xb6, 0xdf, 0x6a, 0xd8, 0x4d, 0x80, 0x0f, 0x07, 0x31, 0x36, 0xee, 0x52, 0x9a, 0x49, 0xb5,
    0x46, 0xe8, 0x05, 0x7b, 0x5e, 0xf7, 0x16, 0xc8, 0xf7, 0x83, 0xba, 0xa8, 0x07, 0xae, 0x5b, 0x6c,
];

/// And the one after a bit of its byte 60 is changed.
const CHANGED: [u8; 32] = [
    0x3a, 0x4c, 0x18, 0x6c, 0xa1, 0xc5, 0xdb, 0xa8, 0xa7, 0xa3, 0xdb, 0x6d, 0x9a, 0xf0, 0xdd, 0x03,
    0xdd, 0x1b, 0xa9, 0x7d, 0x56, 0x03, 0x97, 0xe2, 0x6b, 0xf2, 0xd2, 0x89, 0x84, 0xca, 0xe1, 0x4d,
];

fn header_of(version: u32, sequence: u64) -> Header {
    Header {
        version,
        sequence,
        root: TreeEntry {
            copy: 1,
            sequence,
            iv: [0; 16],
            tag: ROOT_TAG,
        },
    }
}

/// The bytes are these, in hexadecimal.
fn are(rt: &impl Abort, alloc: Global, bytes: &[u8], wanted: &str) -> Result<(), Fail> {
    assert!(rt; hex::encode(alloc, bytes)?.as_str() == wanted);
    Ok(())
}

/// What a block reads as.
fn block_of<B: Board>(
    rt: &impl Abort,
    board: &mut B,
    block: u64,
) -> Result<[u8; BLOCK], BoardFailed> {
    assert!(rt; block < board.blocks());
    let mut bytes = [1; BLOCK];
    board.read(block, &mut bytes)?;
    Ok(bytes)
}

/// Writes a block.
fn fill<B: Board>(
    rt: &impl Abort,
    board: &mut B,
    block: u64,
    bytes: &[u8; BLOCK],
) -> Result<(), BoardFailed> {
    assert!(rt; block < board.blocks());
    board.write(block, bytes)
}

/// A board whose slots have these headers, version and sequence, with their gates open. A change is made in byte 60 of
/// the header of slot 1.
struct Row {
    blocks: u64,
    counter: u32,
    headers: &'static [(u32, u64)],
    changed: u8,
    /// The sequence that is found, or the refusal.
    answer: Result<Option<u64>, OpenAnswer>,
}

const ROWS: &[Row] = &[
    Row {
        blocks: 8_741,
        counter: 0,
        headers: &[],
        changed: 0,
        answer: Err(OpenAnswer::TooSmall(8_741)),
    },
    Row {
        blocks: 8_742,
        counter: 0,
        headers: &[],
        changed: 0,
        answer: Ok(None),
    },
    Row {
        blocks: 8_742,
        counter: 3,
        headers: &[],
        changed: 0,
        answer: Err(OpenAnswer::NoVolume(3)),
    },
    Row {
        blocks: 8_742,
        counter: 6,
        headers: &[(0, 5)],
        changed: 0,
        answer: Err(OpenAnswer::Rollback {
            sequence: 5,
            counter: 6,
        }),
    },
    Row {
        blocks: 8_742,
        counter: 5,
        headers: &[(0, 5), (0, 6)],
        changed: 0,
        answer: Ok(Some(6)),
    },
    Row {
        blocks: 8_742,
        counter: 5,
        headers: &[(0, 7)],
        changed: 0,
        answer: Err(OpenAnswer::Ahead {
            sequence: 7,
            counter: 5,
        }),
    },
    Row {
        blocks: 8_742,
        counter: 5,
        headers: &[(0, 5), (9, 6)],
        changed: 0,
        answer: Err(OpenAnswer::UnknownVersion(9)),
    },
    Row {
        blocks: 8_742,
        counter: 6,
        headers: &[(0, 5), (0, 6)],
        changed: 1,
        answer: Err(OpenAnswer::BadHeader {
            slot: 1,
            found: CHANGED,
            kept: KEPT,
        }),
    },
];

/// Lays a header and opens its gate.
fn write_header<B: Board>(
    rt: &impl Abort,
    board: &mut B,
    header: &Header,
) -> Result<(), BoardFailed> {
    assert!(rt; board.blocks() >= 4);
    lay(board, header)?;
    fill(rt, board, 2 * (header.sequence % 2), &[0xA5; BLOCK])
}

/// Advances the counter so often.
fn raise<B: Board>(board: &mut B, times: u32) -> Result<(), BoardFailed> {
    for _ in 0..times {
        let _raised = board.advance()?;
    }
    Ok(())
}

fn prepare<B: Board>(rt: &impl Abort, board: &mut B, row: &Row) -> Result<(), BoardFailed> {
    raise(board, row.counter)?;
    for (version, sequence) in row.headers.iter() {
        write_header(rt, board, &header_of(*version, *sequence))?;
    }
    let mut block = block_of(rt, board, 3)?;
    block[60] ^= row.changed;
    fill(rt, board, 3, &block)
}

/// The opening answers as the row says, writes nothing, and leaves the counter where it belongs.
fn check_opening<B: Board>(rt: &impl Abort, board: &mut B, row: &Row) -> Result<(), BoardFailed> {
    let written = board.writes();
    let found = find_header(board, FORMAT);
    let answer = found.map(|header| header.map(|header| header.sequence));
    assert!(rt; answer == row.answer);
    assert!(rt; board.writes() == written);
    assert!(rt; board.counter()? == counter_behind(&row.answer, row.counter));
    Ok(())
}

fn check_on<B: Board>(rt: &impl Abort, board: &mut B, row: &Row) -> Result<(), BoardFailed> {
    prepare(rt, board, row)?;
    check_opening(rt, board, row)
}

fn check(rt: &impl Abort, alloc: Global, row: &Row) -> Result<(), Fail> {
    let mut board = MemBoard::blank(alloc, KEY, row.blocks)?;
    let checked = check_on(rt, &mut board, row);
    drop(board);
    Ok(checked?)
}

#[test]
fn the_rule_answers_each_row(rt: HostRuntime) -> Result<(), Fail> {
    for row in ROWS.iter() {
        check(&rt, rt.alloc(), row)?;
    }
    Ok(())
}

/// The block has these bytes, and zeros behind them.
fn is_header(
    rt: &impl Abort,
    alloc: Global,
    block: &[u8; BLOCK],
    wanted: &str,
) -> Result<(), Fail> {
    are(rt, alloc, &block[..120], wanted)?;
    assert!(rt; block[120..].iter().all(|byte| *byte == 0));
    Ok(())
}

/// The last three steps of a commit to sequence 5.
fn end_commit<B: Board>(rt: &impl Abort, board: &mut B, header: Header) -> Result<(), Fail> {
    assert!(rt; board.blocks() >= 4);
    shut(board, 1)?;
    lay(board, &header)?;
    assert!(rt; flip(board, 1)? == 5);
    assert!(rt; find_header(board, FORMAT) == Ok(Some(header)));
    Ok(())
}

/// The block of that header, and of its gate, which the first step of a commit to sequence 7 shuts.
fn check_blocks<B: Board>(rt: &impl Abort, alloc: Global, board: &mut B) -> Result<(), Fail> {
    let block = block_of(rt, board, 3)?;
    is_header(rt, alloc, &block, TOLD)?;
    assert!(rt; block_of(rt, board, 2)? == [0xA5; BLOCK]);
    assert!(rt; board.blocks() >= 4);
    shut(board, 1)?;
    assert!(rt; block_of(rt, board, 2)? == [0; BLOCK]);
    Ok(())
}

fn check_commit<B: Board>(rt: &impl Abort, alloc: Global, board: &mut B) -> Result<(), Fail> {
    raise(board, 4)?;
    end_commit(rt, board, header_of(FORMAT.newest, 5))?;
    check_blocks(rt, alloc, board)
}

#[test]
fn a_header_has_the_bytes_computed_outside(rt: HostRuntime) -> Result<(), Fail> {
    let mut board = MemBoard::blank(rt.alloc(), KEY, 8_742)?;
    let checked = check_commit(&rt, rt.alloc(), &mut board);
    drop(board);
    checked
}

#[test]
fn an_entry_has_the_bytes_of_the_table(rt: HostRuntime) -> Result<(), Fail> {
    let bytes = entry_bytes(&SEALED);
    are(&rt, rt.alloc(), &bytes, ENTRY)?;
    assert!(rt; entry_at(&bytes, 0) == SEALED);
    Ok(())
}
