//! A run of a script over a board in memory.

use board::Board;
use boards::MemBoard;
use sample_apps::sample_hosts;
use std::alloc::Global;
use std::process::Abort;
use tee_base::{Bytes, MemSink, MemSource, limits};
use tee_top::{Status, run_tee};

/// A blank board.
pub fn blank(rt: &impl Abort, alloc: Global) -> MemBoard {
    MemBoard::blank(alloc, [0; 32], limits::BOARD_BLOCKS).expect(rt, "a board")
}

/// Runs these words with this script over the board, with what it writes in the sink.
fn run_into<B: Board + Drop>(
    rt: &impl Abort,
    alloc: Global,
    words: &[String],
    script: &str,
    board: B,
    sink: &mut MemSink,
) -> (Status, B) {
    let text = Bytes::from_slice(alloc, script.as_bytes()).expect(rt, "a script");
    let mut source = MemSource::new(alloc, text, &[]).expect(rt, "a source");
    let hosts = sample_hosts(alloc).expect(rt, "hosts");
    let (status, board) = run_tee(alloc, words, &mut source, sink, board, hosts, [0; 32]);
    drop(source);
    (status, board)
}

/// What a run wrote, and the number of its status.
#[derive(Drop)]
pub struct Ran {
    pub number: u8,
    pub written: Vec<u8>,
}

impl Ran {
    /// Whether it was Done.
    pub fn is_done(&self) -> bool {
        self.number == 0
    }

    /// Whether this text is somewhere in what was written.
    pub fn has(&self, part: &str) -> bool {
        self.written
            .as_slice()
            .windows(part.len().max(1))
            .any(|window| window == part.as_bytes())
    }

    /// Whether it wrote this and no more.
    pub fn wrote(&self, text: &str) -> bool {
        self.written.as_slice() == text.as_bytes()
    }
}

/// A run of these words with this script over the board, and the board that it handed back.
pub fn run_words<B: Board + Drop>(
    rt: &impl Abort,
    alloc: Global,
    words: &[String],
    script: &str,
    board: B,
) -> (Ran, B) {
    let mut sink = MemSink::new(alloc, &[]).expect(rt, "a sink");
    let (status, board) = run_into(rt, alloc, words, script, board, &mut sink);
    let mut written = Vec::new(alloc);
    written
        .extend_from_slice(sink.written())
        .expect(rt, "what was written");
    drop(sink);
    let number = status.number();
    (Ran { number, written }, board)
}

/// A run of this script over the board, and the board that it handed back.
pub fn run_on<B: Board + Drop>(rt: &impl Abort, alloc: Global, board: B, script: &str) -> (Ran, B) {
    let words = [String::from_str(alloc, "run").expect(rt, "a word")];
    run_words(rt, alloc, words.as_slice(), script, board)
}
