//! Applications over 1 KiB of memory, whose first instruction is its first word.

use app_api::{Answer, Application, Ask, Entry, Given, Params};
use c_app::{CApp, Layout};
use rv32::BASE;
use std::alloc::Global;
use std::test::Fail;
use tee_base::{Code, NoMemory};

/// The bytes of the memory.
pub const SIZE: usize = 0x400;

/// Where the block of parameters lies.
pub const BLOCK: u32 = BASE + 0x200;

/// `ecall`.
pub const ECALL: u32 = 0x0000_0073;

/// `ebreak`.
pub const EBREAK: u32 = 0x0010_0073;

/// `lui t0, 0x10`: t0 has the address of the first byte.
const BASE_TO_T0: u32 = 0x0001_02b7;

/// `lw x0, 0(t0)`, to which a register and an offset are added.
const LOAD_FROM_T0: u32 = 0x0002_a003;

/// The register a0.
const A0: u32 = 10;

/// Where the words for a0 to a7 lie.
const TABLE: u32 = 0x100;

/// An application whose first words are these.
pub fn app_of(alloc: Global, words: &[u32]) -> Result<CApp, Fail> {
    let mut memory = Vec::new(alloc);
    memory.resize(SIZE, 0)?;
    let layout = Layout {
        start: BASE,
        block: BLOCK,
    };
    let mut app = CApp::new(memory, layout)?;
    put_words(&mut app, BASE, words);
    Ok(app)
}

/// Puts words from an address on.
fn put_words(app: &mut CApp, from: u32, words: &[u32]) {
    let mut at = from;
    for word in words {
        let _ = app.machine.memory.set_word(at, *word);
        at = at.wrapping_add(4);
    }
}

/// An application that loads these words into a0 to a7, calls, and stops at `ebreak` after the answer.
pub fn app_that_asks(alloc: Global, registers: &[u32; 8]) -> Result<CApp, Fail> {
    let mut app = app_of(alloc, &[BASE_TO_T0])?;
    for index in 0..8_u32 {
        let load = LOAD_FROM_T0 + (A0 + index) * 0x80 + (TABLE + 4 * index) * 0x10_0000;
        let _ = app.machine.memory.set_word(BASE + 4 + 4 * index, load);
    }
    put_words(&mut app, BASE + 0x24, &[ECALL, EBREAK]);
    put_words(&mut app, BASE + TABLE, registers);
    Ok(app)
}

/// What the application asks for when it is created.
pub fn create(alloc: Global, app: &mut CApp) -> Result<Ask, NoMemory> {
    app.step(alloc, Given::Entry(Entry::Create))
}

/// What it asks for when a command comes.
pub fn invoke(
    alloc: Global,
    app: &mut CApp,
    command: u32,
    params: Params,
) -> Result<Ask, NoMemory> {
    let entry = Entry::Invoke {
        session: 1,
        command,
        params,
    };
    app.step(alloc, Given::Entry(entry))
}

/// What it asks for after an answer.
pub fn answer(alloc: Global, app: &mut CApp, answer: Answer) -> Result<Ask, NoMemory> {
    app.step(alloc, Given::Answer(answer))
}

/// Whether it is the panic of a program that made a mistake.
pub fn is_panic(ask: &Ask) -> bool {
    match ask {
        Ask::Panic { code } => *code == Code::GENERIC,
        _ => false,
    }
}
