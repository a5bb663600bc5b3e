//! How an entry comes to the machine: its parameters in memory, and its numbers in registers.

ghost use Rattle.std.specs.Prelude.{◌≡◌, ◌≤◌};
ghost use Rattle.tee_base.specs.declared.limits.TheConstants.{MAX_ASK_BYTES};
ghost use Rattle.app_api.specs.Params.{size_of};
ghost use Rattle.c_app.specs.Entering as rows;

use crate::places::{Places, at_block};
use crate::registers::{A0, A1, A2, A3, A4};
use crate::slots::{Slots, slot_of};
use app_api::{Param, Params};
use rv32::{Machine, Memory};

/// Which entry point is called (TEE Internal Core API 1.3, section 4.3).
#[derive(Clone, Copy, Debug, PartialEq, Eq)]
pub enum EntryKind {
    Create,
    Destroy,
    Start,
    Stop,
    Invoke,
}

impl EntryKind {
    /// Its number, which comes in a0.
    pub fn number(self) -> u32
        // From 0 to 4 in their order.
        ensures { result ≡ rows.number_of self }
    {
        match self {
            EntryKind::Create => 0,
            EntryKind::Destroy => 1,
            EntryKind::Start => 2,
            EntryKind::Stop => 3,
            EntryKind::Invoke => 4,
        }
    }
}

/// Which entry begins, of which session, with which command.
#[derive(Clone, Copy, Debug)]
pub struct EntryCall {
    pub kind: EntryKind,
    pub session: u8,
    pub command: u32,
}

/// What an image says of itself: the address of its first instruction, and that of the block of parameters.
#[derive(Clone, Copy, Debug)]
pub struct Layout {
    pub start: u32,
    pub block: u32,
}

/// Puts the two words of a `TEE_Param`.
fn put_words(memory: &mut Memory, at: u32, a: u32, b: u32)
    // Two words, one after the other.
    ensures { memory.new ≡ rows.put_words memory.old at a b }
{
    let _ = memory.set_word(at, a);
    let _ = memory.set_word(at.wrapping_add(4), b);
}

/// Puts a parameter: its `TEE_Param`, and its bytes.
#[tactic(auto, unfolding(crate::specs::Entering::put_param))]
fn put_param(memory: &mut Memory, at: u32, param: &Param, address: u32)
    // It is no larger than one may be.
    requires { size_of param.now ≤ MAX_ASK_BYTES }
    // The bytes that come in, and zeros in a buffer that is for output alone.
    ensures { memory.new ≡ rows.put_param param.now memory.old at address }
{
    match param {
        Param::ValueIn(a, b) | Param::ValueInOut(a, b) => put_words(memory, at, *a, *b),
        Param::MemIn(bytes) | Param::MemInOut(bytes) => {
            put_words(memory, at, address, bytes.len() as u32);
            let _ = memory.put_bytes(address, bytes.as_slice());
        }
        Param::MemOut(room) => {
            put_words(memory, at, address, *room);
            let _ = memory.clear(address, *room);
        }
        _ => put_words(memory, at, 0, 0),
    }
}

fn types_of(params: &Params) -> u32
    // Four bits for each kind.
    ensures { result ≡ rows.types_of params.now }
{
    u32::from(params.p0.kind())
        + u32::from(params.p1.kind()) * 0x10
        + u32::from(params.p2.kind()) * 0x100
        + u32::from(params.p3.kind()) * 0x1000
}

fn registers_of(call: EntryCall, block: u32, params: &Params) -> [u32; 32]
    // The entry in a0 to a4, and zeros.
    ensures { result ≡ rows.registers_of call block params.now }
{
    let mut registers = [0; 32];
    registers[A0] = call.kind.number();
    registers[A1] = u32::from(call.session);
    registers[A2] = call.command;
    registers[A3] = types_of(params);
    registers[A4] = block;
    registers
}

/// The machine begins an entry, with the parameters at their places. The slots are where it gives the outputs.
#[tactic(auto, unfolding(crate::specs::Entering::begun))]
pub fn begin(
    machine: &mut Machine,
    call: EntryCall,
    layout: Layout,
    params: &Params,
    places: Places,
) -> Slots
    // Sizes and addresses fit their types.
    requires { rows.AreSmall params.now places }
    // The machine is at its first instruction, with new registers.
    ensures machine { machine.new ≡ rows.begun machine.old call layout params.now places }
    // The outputs are of the buffers that the entry is given.
    ensures slots { result ≡ rows.slots_of params.now places }
{
    let (p0, p1) = (places.p0 as u32, places.p1 as u32);
    let (p2, p3) = (places.p2 as u32, places.p3 as u32);
    let memory = &mut machine.memory;
    put_param(memory, at_block(layout.block, 0), &params.p0, p0);
    put_param(memory, at_block(layout.block, 1), &params.p1, p1);
    put_param(memory, at_block(layout.block, 2), &params.p2, p2);
    put_param(memory, at_block(layout.block, 3), &params.p3, p3);
    machine.pc = layout.start;
    machine.registers = registers_of(call, layout.block, params);
    Slots {
        p0: slot_of(&params.p0, p0),
        p1: slot_of(&params.p1, p1),
        p2: slot_of(&params.p2, p2),
        p3: slot_of(&params.p3, p3),
    }
}
