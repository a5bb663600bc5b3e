//! What an entry gives when it returns, and bytes of the memory.

ghost use Rattle.std.specs.Prelude.{◌≡◌, ◌≤◌, length};
ghost use Rattle.tee_base.specs.declared.limits.TheConstants.{MAX_ASK_BYTES};
ghost use Rattle.c_app.specs.Outputs as rows;
ghost use Rattle.c_app.specs.Rooms.{IsFree, IsRoom};

use crate::places::at_block;
use crate::registers::A0;
use crate::room::Room;
use crate::slots::{Slot, Slots};
use app_api::{Ask, Out, Outs};
use rv32::{Machine, Memory};
use tee_base::{Bytes, Code, limits};

/// A slice in a vector that has the room.
fn kept(slice: &[u8], vector: Vec<u8>) -> Bytes
    // The vector is empty and has the room.
    requires room { IsFree MAX_ASK_BYTES vector }
    // The slice is no longer.
    requires few { length slice.now ≤ MAX_ASK_BYTES }
    // The bytes of the slice.
    ensures { result ≡ slice.now }
{
    let mut vector = vector;
    match vector.extend_from_slice(slice) {
        Ok(()) => Bytes::from_vec(vector),
        Err(_) => unreachable!(),
    }
}

/// So many bytes at an address, in a vector that has the room.
pub fn bytes_at(memory: &Memory, address: u32, size: u32, vector: Vec<u8>) -> Option<Bytes>
    // The vector is empty and has the room.
    requires { IsFree MAX_ASK_BYTES vector }
    // The bytes, and None where they don't all lie in memory or are too many.
    ensures { result ≡ rows.bytes_at memory.now address size }
{
    if size == 0 {
        return Some(Bytes::from_vec(vector));
    }
    if size > limits::MAX_ASK_BYTES {
        return None;
    }
    match memory.slice(address, size) {
        Some(slice) => Some(kept(slice, vector)),
        None => None,
    }
}

#[tactic(auto, unfolding(crate::specs::Outputs::value_out))]
fn value_out(a: Option<u32>, b: Option<u32>) -> Option<Out>
    // Two numbers, where both were found.
    ensures { result ≡ rows.value_out a b }
{
    match (a, b) {
        (Some(a), Some(b)) => Some(Out::Value(a, b)),
        _ => None,
    }
}

fn bytes_out(bytes: Option<Bytes>) -> Option<Out>
    // The bytes, where they were found.
    ensures { result ≡ rows.bytes_out bytes }
{
    match bytes {
        Some(bytes) => Some(Out::Mem(bytes)),
        None => None,
    }
}

/// A size beyond the buffer is told; else so many of its bytes are given.
fn memory_out(
    memory: &Memory,
    address: u32,
    room: u32,
    size: Option<u32>,
    vector: Vec<u8>,
) -> Option<Out>
    // The vector is empty and has the room.
    requires { IsFree MAX_ASK_BYTES vector }
    // No more bytes than the buffer has.
    ensures { result ≡ rows.memory_out memory.now address room size }
{
    match size {
        Some(size) if size > room => Some(Out::Size(size)),
        Some(size) => bytes_out(bytes_at(memory, address, size, vector)),
        None => None,
    }
}

/// The output of a place, whose numbers or whose size the `TEE_Param` at this address says.
#[tactic(auto, unfolding(crate::specs::Outputs::out_at))]
fn out_at(slot: Slot, memory: &Memory, at: u32, vector: Vec<u8>) -> Option<Out>
    // The vector is empty and has the room.
    requires { IsFree MAX_ASK_BYTES vector }
    // Two words, or bytes of the buffer that the entry was given.
    ensures { result ≡ rows.out_at slot memory.now at }
{
    match slot {
        Slot::Nothing => Some(Out::Nothing),
        Slot::Value => value_out(memory.word(at), memory.word(at.wrapping_add(4))),
        Slot::Mem { address, room } => {
            let size = memory.word(at.wrapping_add(4));
            memory_out(memory, address, room, size, vector)
        }
    }
}

#[tactic(auto, unfolding(crate::specs::Outputs::return_with))]
fn return_with(
    code: u32,
    p0: Option<Out>,
    p1: Option<Out>,
    p2: Option<Out>,
    p3: Option<Out>,
) -> Option<Ask>
    // The return, where all four were found.
    ensures { result ≡ rows.return_with code p0 p1 p2 p3 }
{
    let Some(p0) = p0 else {
        return None;
    };
    let Some(p1) = p1 else {
        return None;
    };
    let Some(p2) = p2 else {
        return None;
    };
    let Some(p3) = p3 else {
        return None;
    };
    Some(Ask::Return {
        code: Code(code),
        outs: Outs { p0, p1, p2, p3 },
    })
}

/// The entry returns with the code in a0.
pub fn returned(machine: &Machine, block: u32, slots: Slots, room: Room) -> Option<Ask>
    // Six empty vectors that have the room.
    requires { IsRoom MAX_ASK_BYTES room }
    // The code, and the output of each place.
    ensures { result ≡ rows.returned machine.now block slots }
{
    let memory = &machine.memory;
    let p0 = out_at(slots.p0, memory, at_block(block, 0), room.p0);
    let p1 = out_at(slots.p1, memory, at_block(block, 1), room.p1);
    let p2 = out_at(slots.p2, memory, at_block(block, 2), room.p2);
    let p3 = out_at(slots.p3, memory, at_block(block, 3), room.p3);
    return_with(machine.registers[A0], p0, p1, p2, p3)
}
