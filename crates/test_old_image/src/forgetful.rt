//! A board that loses what it acknowledged.
ghost use Rattle.std.specs.Prelude.{◌≡◌, false, is_ok};

use board::{BLOCK, Board, BoardFailed};

/// A board that is another one from its first `fuse` on, so what was acknowledged before that is lost. The calls of both
/// are the same from then on, and what is counted of them is that of the first.
#[derive(Drop)]
pub struct Forgetful<B: Board> {
    first: B,
    later: B,
    has_forgotten: bool,
}

impl<B: Board> Forgetful<B> {
    /// A board that is the first one until a `fuse`, and then the later one.
    pub fn of(first: B, later: B) -> Forgetful<B> {
        Forgetful {
            first,
            later,
            has_forgotten: false,
        }
    }
}

/// The number that the later board told, where the first one answered too.
fn told(
    first: Result<u64, BoardFailed>,
    later: Result<u64, BoardFailed>,
) -> Result<u64, BoardFailed>
    ensures { is_ok result ≡ is_ok first }
{
    match (first, later) {
        (Ok(_), Ok(number)) => Ok(number),
        (answer, _) => answer,
    }
}

impl<B: Board> Board for Forgetful<B> {
    ghost tells_reads = { false };

    ghost view = { λ b. B.view b.first };

    ghost honest = { λ b. ⊥ };

    ghost consistent = { λ b h. absurd h };

    ghost honest_reads = { λ b h. absurd h };

    fn blocks(&self) -> u64 {
        self.first.blocks()
    }

    fn key(&self) -> [u8; 32] {
        self.first.key()
    }

    fn read(&mut self, block: u64, into: &mut [u8; BLOCK]) -> Result<(), BoardFailed> {
        let answer = self.first.read(block, into);
        if self.has_forgotten && block < self.later.blocks() {
            let _same = self.later.read(block, into);
        }
        answer
    }

    fn write(&mut self, block: u64, from: &[u8; BLOCK]) -> Result<(), BoardFailed> {
        if self.has_forgotten && block < self.later.blocks() {
            let _same = self.later.write(block, from);
        }
        self.first.write(block, from)
    }

    fn sync(&mut self) -> Result<(), BoardFailed> {
        if self.has_forgotten {
            let _same = self.later.sync();
        }
        self.first.sync()
    }

    fn counter(&mut self) -> Result<u64, BoardFailed> {
        let answer = self.first.counter();
        if self.has_forgotten {
            return told(answer, self.later.counter());
        }
        answer
    }

    fn advance(&mut self) -> Result<u64, BoardFailed> {
        let answer = self.first.advance();
        if self.has_forgotten {
            return told(answer, self.later.advance());
        }
        answer
    }

    fn fuse(&mut self, calls: u32) {
        self.has_forgotten = true;
        self.later.fuse(calls);
        self.first.fuse(calls);
    }

    fn power(&mut self, pick: u64) {
        if self.has_forgotten {
            self.later.power(pick);
        }
        self.first.power(pick);
    }

    fn faults(&self) -> u64 {
        self.first.faults()
    }

    fn writes(&self) -> u64 {
        self.first.writes()
    }

    fn orders(&self) -> u64 {
        self.first.orders()
    }

    fn ordered(&self) -> u64 {
        self.first.ordered()
    }
}
