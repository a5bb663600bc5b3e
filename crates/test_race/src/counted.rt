//! A board whose writes are counted in a shared word, and a gate that notes that number.

use board::{BLOCK, Board, BoardFailed};
use shared_tee::Gate;
use std::sync::Arc;
use std::sync::atomic::{AtomicU64, Ordering};

/// A board that passes each call on to another, and adds one to a shared number in each `write`.
#[derive(Drop)]
pub struct Counted<B: Board> {
    board: B,
    writes: Arc<AtomicU64>,
}

impl<B: Board> Counted<B> {
    /// The board, whose writes are added to this number.
    pub fn of(board: B, writes: Arc<AtomicU64>) -> Counted<B> {
        Counted { board, writes }
    }
}

impl<B: Board> Board for Counted<B> {
    ghost tells_reads = { B.tells_reads };

    ghost view = { λ b. B.view b.board };

    ghost honest = { λ b. B.honest b.board };

    ghost consistent = { λ b h. B.consistent b.board h };

    ghost honest_reads = { λ b h. B.honest_reads b.board h };

    fn blocks(&self) -> u64 {
        self.board.blocks()
    }

    fn key(&self) -> [u8; 32] {
        self.board.key()
    }

    fn read(&mut self, block: u64, into: &mut [u8; BLOCK]) -> Result<(), BoardFailed> {
        self.board.read(block, into)
    }

    fn write(&mut self, block: u64, from: &[u8; BLOCK]) -> Result<(), BoardFailed> {
        self.writes.fetch_add(1, Ordering::SeqCst);
        self.board.write(block, from)
    }

    fn sync(&mut self) -> Result<(), BoardFailed> {
        self.board.sync()
    }

    fn counter(&mut self) -> Result<u64, BoardFailed> {
        self.board.counter()
    }

    fn advance(&mut self) -> Result<u64, BoardFailed> {
        self.board.advance()
    }

    fn fuse(&mut self, calls: u32) {
        self.board.fuse(calls);
    }

    fn power(&mut self, pick: u64) {
        self.board.power(pick);
    }

    fn faults(&self) -> u64 {
        self.board.faults()
    }

    fn writes(&self) -> u64 {
        self.board.writes()
    }

    fn orders(&self) -> u64 {
        self.board.orders()
    }

    fn ordered(&self) -> u64 {
        self.board.ordered()
    }
}

/// A gate that is always open. It notes the number before each of the first three lines of client 0.
#[derive(Drop)]
pub struct Noting {
    writes: Arc<AtomicU64>,
    first: AtomicU64,
    second: AtomicU64,
    third: AtomicU64,
}

impl Noting {
    /// A gate that notes this number, and has noted nothing yet.
    pub fn of(writes: Arc<AtomicU64>) -> Noting {
        Noting {
            writes,
            first: AtomicU64::new(0),
            second: AtomicU64::new(0),
            third: AtomicU64::new(0),
        }
    }

    /// What was noted before each of the three lines.
    pub fn noted(&self) -> [u64; 3] {
        [
            self.first.load(Ordering::SeqCst),
            self.second.load(Ordering::SeqCst),
            self.third.load(Ordering::SeqCst),
        ]
    }
}

impl Gate for Noting {
    fn at(&self, client: u8, line: u32) {
        let number = self.writes.load(Ordering::SeqCst);
        match (client, line) {
            (0, 1) => self.first.store(number, Ordering::SeqCst),
            (0, 2) => self.second.store(number, Ordering::SeqCst),
            (0, 3) => self.third.store(number, Ordering::SeqCst),
            _ => {}
        }
    }
}
