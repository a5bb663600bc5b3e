//! A race of a script for the sample applications.

use board::Board;
use boards::MemBoard;
use sample_apps::sample_hosts;
use shared_tee::Gate;
use std::alloc::Global;
use std::process::Abort;
use std::sync::Wait;
use std::thread::Threads;
use tee_base::{Bytes, MemSink, MemSource};
use tee_top::race_tee;

/// The word of a race, its script, and the numbers of the reads and writes that fail.
#[derive(Clone, Copy)]
pub struct Asked<'a> {
    pub word: &'a str,
    pub script: &'a str,
    pub reads: &'a [u64],
    pub writes: &'a [u64],
}

/// A race of this script in which nothing fails.
pub fn race_of(script: &str) -> Asked<'_> {
    Asked {
        word: "race",
        script,
        reads: &[],
        writes: &[],
    }
}

/// A blank board of so many blocks.
pub fn blank(rt: &impl Abort, alloc: Global, blocks: u64) -> MemBoard {
    MemBoard::blank(alloc, [0; 32], blocks).expect(rt, "a board")
}

/// Races the script over this board, with what it writes in the sink. The number of its status.
fn race_into<R: Threads + Wait + Sync + Abort, B: Board + Drop + Send, G: Gate>(
    rt: &R,
    alloc: Global,
    asked: Asked<'_>,
    board: B,
    gate: &G,
    sink: &mut MemSink,
) -> u8 {
    let words = [String::from_str(alloc, asked.word).expect(rt, "a word")];
    let text = Bytes::from_slice(alloc, asked.script.as_bytes()).expect(rt, "a script");
    let mut source = MemSource::new(alloc, text, asked.reads).expect(rt, "a source");
    let hosts = sample_hosts(alloc).expect(rt, "hosts");
    let words = words.as_slice();
    let (status, board) = race_tee(
        rt,
        alloc,
        words,
        &mut source,
        sink,
        board,
        hosts,
        [0; 32],
        gate,
    );
    drop(board);
    drop(source);
    status.number()
}

/// The number of the status of a race over this board, and what it wrote.
pub fn race_on<R: Threads + Wait + Sync + Abort, B: Board + Drop + Send, G: Gate>(
    rt: &R,
    alloc: Global,
    asked: Asked<'_>,
    board: B,
    gate: &G,
) -> (u8, Vec<u8>) {
    let mut sink = MemSink::new(alloc, asked.writes).expect(rt, "a sink");
    let number = race_into(rt, alloc, asked, board, gate, &mut sink);
    let mut written = Vec::new(alloc);
    written
        .extend_from_slice(sink.written())
        .expect(rt, "what was written");
    drop(sink);
    (number, written)
}
