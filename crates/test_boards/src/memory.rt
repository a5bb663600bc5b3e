//! The board in memory against rows that were worked by hand, and against a plain model.
use crate::loss::left_of;
use crate::rows::{Row, go_through};
use board::Board;
use boards::MemBoard;
use std::alloc::Global;
use std::process::Abort;
use tee_base::Bytes;

const KEY: [u8; 32] = [7; 32];

/// A board of so many zero blocks.
fn blank(rt: &impl Abort, alloc: Global, blocks: u64) -> MemBoard {
    MemBoard::blank(alloc, KEY, blocks).expect(rt, "a board")
}

/// Makes the calls in order on a blank board of one block.
fn run(rt: &impl Abort, alloc: Global, number: u64, failing: &[u64], rows: &[Row]) {
    let mut board = blank(rt, alloc, 1);
    board.failing(failing).expect(rt, "names");
    go_through(rt, &mut board, number, rows);
    drop(board);
}

/// Block 0 has a durable 0x11 and a pending 0x22.
const PENDING: &[Row] = &[
    Row::Fill(0, 0x11, true),
    Row::Sync(true),
    Row::Fill(0, 0x22, true),
];

/// A write of 0x33 to block 2 and an advance are interrupted. An interrupted write isn't read.
const INTERRUPTED: &[Row] = &[
    Row::Fill(2, 0x33, false),
    Row::Advance(None),
    Row::Faults(2),
    Row::Ends(0, Some((0x22, 0x22))),
    Row::Ends(2, Some((0, 0))),
];

/// A write to block 2 and an advance are interrupted behind what is pending.
fn unsettle(rt: &impl Abort, board: &mut MemBoard) {
    go_through(rt, board, 0, PENDING);
    board.failing(&[3, 4]).expect(rt, "names");
    go_through(rt, board, 0, INTERRUPTED);
}

/// What power leaves by this number: the counter, and the ends of blocks 0 and 2.
type Left = (u64, u64, (u8, u8), (u8, u8));

/// The power is lost by the number, and leaves this.
fn lost(left: &Left) -> [Row; 6] {
    let (pick, counter, first, third) = *left;
    [
        Row::Power(pick),
        Row::Counter(Some(counter)),
        Row::Ends(0, Some(first)),
        Row::Ends(1, Some((0, 0))),
        Row::Ends(2, Some(third)),
        Row::Orders(1, pick),
    ]
}

/// The counter of a board that is lent.
fn told<B: Board + Drop>(mut board: B) -> Option<u64> {
    board.counter().ok()
}

/// Whether the counter is 0.
fn tell<B: Board>(board: &mut B) -> bool {
    told(&mut *board) == Some(0)
}

/// Behind both interrupted calls the power is lost, where that is wanted once the counter is told.
fn lose(rt: &impl Abort, alloc: Global, tells: bool, left: &Left) {
    let mut board = blank(rt, alloc, 3);
    unsettle(rt, &mut board);
    let holds = !tells || tell(&mut board);
    go_through(rt, &mut board, left.0, &lost(left));
    drop(board);
    assert!(rt; holds);
}

const PICKS: &[Left] = &[
    (0, 0, (0x11, 0x11), (0, 0)),
    (1, 1, (0x11, 0x11), (0, 0)),
    (3, 1, (0x22, 0x22), (0, 0)),
    (4, 0, (0x22, 0x11), (0, 0)),
    (6, 0, (0xA5, 0xA5), (0, 0)),
    (8, 0, (0x11, 0x11), (0x33, 0x33)),
    (17, 1, (0x11, 0x11), (0x33, 0)),
    (31, 1, (0xA5, 0xA5), (0xA5, 0xA5)),
    (32, 0, (0x11, 0x11), (0, 0)),
];

#[test]
fn power_picks_what_it_leaves(rt: HostRuntime) {
    for left in PICKS {
        lose(&rt, rt.alloc(), false, left);
    }
}

#[test]
fn a_told_counter_is_settled(rt: HostRuntime) {
    lose(&rt, rt.alloc(), true, &(1, 0, (0x22, 0x22), (0, 0)));
}

#[test]
fn a_fuse_lets_its_calls_pass(rt: HostRuntime) {
    const ROWS: &[Row] = &[
        Row::Fuse(9),
        Row::Fuse(2),
        Row::Advance(Some(1)),
        Row::Fill(0, 1, true),
        Row::Fill(0, 2, false),
        // a further fuse doesn't mend it: what has blown stays so
        Row::Fuse(5),
        Row::Fill(0, 3, false),
        Row::Sync(false),
        Row::Faults(3),
        Row::Writes(3),
        Row::Orders(3, 16),
        // the power comes back: the refused write offered nothing
        Row::Power(1),
        Row::Ends(0, Some((2, 2))),
        Row::Orders(4, 17),
    ];
    run(&rt, rt.alloc(), 0, &[], ROWS);
}

/// 2,048 bytes, each of them eight times.
fn rising(rt: &impl Abort, alloc: Global) -> Vec<u8> {
    let mut bytes = Vec::new(alloc);
    for n in 0..2048u16 {
        bytes.push((n / 8) as u8).expect(rt, "a byte");
    }
    bytes
}

/// A board of this image, with its counter at the end.
fn ended(rt: &impl Abort, alloc: Global, bytes: &[u8]) -> MemBoard {
    let image = Bytes::from_slice(alloc, bytes).expect(rt, "an image");
    assert!(rt; image.len() == 2048);
    MemBoard::of_image(alloc, image, u64::MAX, KEY).expect(rt, "a board")
}

/// Whether reads give these bytes.
fn gives_back(rt: &impl Abort, alloc: Global, board: &MemBoard, bytes: &[u8]) -> bool {
    let image = board.image(alloc).expect(rt, "an image");
    image.as_slice() == bytes
}

/// The image of a board gives the bytes that it was made of.
fn give_back(rt: &impl Abort, alloc: Global, bytes: &[u8], rows: &[Row]) {
    let mut board = ended(rt, alloc, bytes);
    go_through(rt, &mut board, 0, rows);
    let holds = gives_back(rt, alloc, &board, bytes);
    drop(board);
    assert!(rt; holds);
}

#[test]
fn an_image_comes_back(rt: HostRuntime) {
    // at its end the counter always fails to advance
    const ROWS: &[Row] = &[
        Row::Blocks(2),
        Row::Key(7),
        Row::Ends(1, Some((128, 255))),
        Row::Counter(Some(u64::MAX)),
        Row::Advance(None),
        Row::Faults(1),
    ];
    let bytes = rising(&rt, rt.alloc());
    give_back(&rt, rt.alloc(), bytes.as_slice(), ROWS);
}

/// Of five calls just the named one fails. An interrupted write isn't read, and an interrupted advance isn't told.
fn alone(named: u64) -> [Row; 6] {
    let advanced = if named == 2 { None } else { Some(1) };
    let counter = match named {
        2 => Some(0),
        3 => None,
        _ => Some(1),
    };
    let ends = match named {
        0 => Some((0, 0)),
        4 => None,
        _ => Some((1, 1)),
    };
    [
        Row::Fill(0, 1, named != 0),
        Row::Sync(named != 1),
        Row::Advance(advanced),
        Row::Counter(counter),
        Row::Ends(0, ends),
        Row::Faults(u64::from(named < 5)),
    ]
}

#[test]
fn each_named_call_fails_alone(rt: HostRuntime) {
    for named in 0..6u64 {
        run(&rt, rt.alloc(), named, &[named], &alone(named));
    }
}

/// A block by its first and its last byte: what is durable, what is read, what was offered last.
#[derive(Clone, Copy)]
struct PlainBlock {
    durable: (u8, u8),
    seen: (u8, u8),
    offered: (u8, u8),
    pending: bool,
}

/// A board of two blocks, each of which the rules of a loss of power take in turn.
#[derive(Drop)]
struct PlainBoard {
    blocks: [PlainBlock; 2],
    counter: u64,
    unsettled: bool,
}

impl PlainBoard {
    fn blank() -> PlainBoard {
        let block = PlainBlock {
            durable: (0, 0),
            seen: (0, 0),
            offered: (0, 0),
            pending: false,
        };
        PlainBoard {
            blocks: [block, block],
            counter: 0,
            unsettled: false,
        }
    }

    fn write(&mut self, block: bool, byte: u8, passes: bool) {
        let at = usize::from(block);
        self.blocks[at].offered = (byte, byte);
        self.blocks[at].pending = true;
        if passes {
            self.blocks[at].seen = (byte, byte);
        }
    }

    fn sync(&mut self, passes: bool) {
        for block in self.blocks.iter_mut() {
            if passes {
                block.durable = block.seen;
                block.pending = false;
            }
        }
    }

    fn advance(&mut self, passes: bool) {
        if passes {
            self.counter = self.counter.saturating_add(1);
        }
        self.unsettled = !passes;
    }

    /// One of eight steps.
    fn take(&mut self, step: u32, passes: bool) {
        let byte = (step % 8 + 1) as u8;
        match step % 8 {
            0..=2 => self.write(false, byte, passes),
            3 | 4 => self.write(true, byte, passes),
            5 => self.sync(passes),
            6 => self.unsettled = self.unsettled && !passes,
            _ => self.advance(passes),
        }
    }

    /// One of eight steps, as a call on a board; the fourth bit says that it is interrupted.
    fn step(&mut self, step: u32) -> Row {
        let passes = step % 16 < 8;
        self.take(step, passes);
        let byte = (step % 8 + 1) as u8;
        let counter = if passes { Some(self.counter) } else { None };
        match step % 8 {
            0..=2 => Row::Fill(0, byte, passes),
            3 | 4 => Row::Fill(1, byte, passes),
            5 => Row::Sync(passes),
            6 => Row::Counter(counter),
            _ => Row::Advance(counter),
        }
    }

    fn power(&mut self, pick: u64) {
        let mut rest = pick;
        if self.unsettled {
            self.counter = self.counter.saturating_add(pick % 2);
            rest /= 2;
        }
        self.unsettled = false;
        for block in self.blocks.iter_mut() {
            if block.pending {
                block.durable = left_of(block.durable, block.offered, rest % 4);
                rest /= 4;
            }
            block.seen = block.durable;
            block.pending = false;
        }
    }

    /// A loss of power, the ends of both blocks, and the counter.
    fn lose(&mut self, pick: u64) -> [Row; 4] {
        self.power(pick);
        [
            Row::Power(pick),
            Row::Ends(0, Some(self.blocks[0].seen)),
            Row::Ends(1, Some(self.blocks[1].seen)),
            Row::Counter(Some(self.counter)),
        ]
    }
}

/// Four steps, the lowest bits first.
fn steps(plain: &mut PlainBoard, code: u32) -> [Row; 4] {
    [
        plain.step(code),
        plain.step(code >> 4),
        plain.step(code >> 8),
        plain.step(code >> 12),
    ]
}

/// Names the calls that the code's steps interrupt.
fn name_steps(rt: &impl Abort, board: &mut MemBoard, code: u32) {
    for call in 0..4u32 {
        if (code >> (4 * call)) % 16 >= 8 {
            board.failing(&[u64::from(call)]).expect(rt, "names");
        }
    }
}

/// Four steps and a loss of power leave the same of both boards.
fn agree<B: Board>(rt: &impl Abort, board: &mut B, code: u32) {
    let number = u64::from(code);
    let mut plain = PlainBoard::blank();
    let rows = steps(&mut plain, code);
    go_through(rt, board, number, &rows);
    let lost = plain.lose(number % 61);
    go_through(rt, board, number, &lost);
}

/// A blank board, whose calls fail as the code says.
fn run_code(rt: &impl Abort, alloc: Global, code: u32) {
    let mut board = blank(rt, alloc, 2);
    name_steps(rt, &mut board, code);
    agree(rt, &mut board, code);
    drop(board);
}

#[test]
fn four_steps_and_power_agree_with_the_plain_model(rt: HostRuntime) {
    for code in 0..65536u32 {
        run_code(&rt, rt.alloc(), code);
    }
}

/// A write, an advance, a counter, a read and a fuse.
fn five(n: u64) -> [Row; 5] {
    let block = n % 8742;
    let next = n.wrapping_add(1);
    [
        Row::Fill(block, 1, true),
        Row::Advance(Some(next)),
        Row::Counter(Some(next)),
        Row::Ends(block, Some((1, 1))),
        Row::Fuse(10),
    ]
}

/// Five calls for each number.
fn make_calls<B: Board>(rt: &impl Abort, board: &mut B, rounds: u64) {
    for n in 0..rounds {
        let rows = five(n);
        go_through(rt, board, n, &rows);
        if n % 100 == 0 {
            go_through(rt, board, n, &[Row::Sync(true)]);
        }
    }
    let counted = [Row::Counter(Some(rounds)), Row::Writes(rounds)];
    go_through(rt, board, rounds, &counted);
}

#[test]
fn three_million_calls_stay_fast(rt: HostRuntime) {
    let mut board = blank(&rt, rt.alloc(), 8742);
    make_calls(&rt, &mut board, 600_000);
    drop(board);
}
