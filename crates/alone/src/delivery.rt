//! Delivery of outputs.

ghost use Rattle.std.specs.Prelude.{◌≡◌, IfOk};
ghost use Rattle.alone.specs.Places.{place_of, places_of, shown_at, shown_outputs, is_misuse, is_misused_at, is_too_long, value_shown, memory_shown, size_of_bytes, is_small_size};

use crate::places::{OutputSlot, Places};
use crate::reply::{Outputs, Shown};
use app_api::{Out, Outs, Param, Params};
use std::alloc::Global;
use tee_base::{Bytes, NoMemory, limits};

/// The output position that a parameter is. The bytes of a memory inout are copied.
fn place(alloc: Global, param: &Param) -> Result<OutputSlot, NoMemory>
    ensures { IfOk result (λ place. place ≡ place_of param.now) }
{
    Ok(match param {
        // No entry is given a reference.
        Param::Nothing
        | Param::ValueIn(_, _)
        | Param::MemIn(_)
        | Param::Whole(_)
        | Param::Part { .. } => OutputSlot::Nothing,
        Param::ValueOut => OutputSlot::Value,
        Param::ValueInOut(a, b) => OutputSlot::ValueInOut(*a, *b),
        Param::MemOut(room) => OutputSlot::Mem(*room),
        Param::MemInOut(bytes) => OutputSlot::MemInOut(bytes.copy(alloc)?),
    })
}

/// The output positions of a call.
pub fn places_of(alloc: Global, params: &Params) -> Result<Places, NoMemory>
    ensures { IfOk result (λ places. places ≡ places_of params.now) }
{
    Ok(Places {
        p0: place(alloc, &params.p0)?,
        p1: place(alloc, &params.p1)?,
        p2: place(alloc, &params.p2)?,
        p3: place(alloc, &params.p3)?,
    })
}

/// Whether the output is longer than a memory reference may be.
fn is_too_long(out: &Out) -> bool
    ensures { result ≡ is_too_long out.now }
{
    match out {
        Out::Mem(bytes) => bytes.len() > limits::MAX_ASK_BYTES as usize,
        _ => false,
    }
}

/// Whether the output is a size that isn't above the room.
fn is_small_size(room: usize, out: &Out) -> bool
    ensures { result ≡ is_small_size room out.now }
{
    match out {
        Out::Size(size) => *size as usize <= room,
        _ => false,
    }
}

fn is_misused(place: &OutputSlot, out: &Out) -> bool
    ensures { result ≡ is_misused_at place.now out.now }
{
    match place {
        OutputSlot::Mem(room) => is_small_size(*room as usize, out),
        OutputSlot::MemInOut(bytes) => is_small_size(bytes.len(), out),
        _ => false,
    }
}

/// Whether the outputs of a return are misuse.
pub fn is_misuse(places: &Places, outs: &Outs) -> bool
    ensures { result ≡ is_misuse places.now outs.now }
{
    is_too_long(&outs.p0)
        || is_too_long(&outs.p1)
        || is_too_long(&outs.p2)
        || is_too_long(&outs.p3)
        || is_misused(&places.p0, &outs.p0)
        || is_misused(&places.p1, &outs.p1)
        || is_misused(&places.p2, &outs.p2)
        || is_misused(&places.p3, &outs.p3)
}

fn shown_value(a: u32, b: u32, out: Out) -> Shown
    ensures { result ≡ value_shown a b out }
{
    match out {
        Out::Value(a, b) => Shown::Value(a, b),
        _ => Shown::Value(a, b),
    }
}

/// How many bytes there are, as a size of 32 bits says it.
pub(crate) fn size(bytes: &Bytes) -> u32
    ensures { result ≡ size_of_bytes bytes.now }
{
    u32::try_from(bytes.len()).unwrap_or(u32::MAX)
}

fn shown_memory(before: Bytes, room: usize, out: Out) -> Shown
    ensures { result ≡ memory_shown before room out }
{
    match out {
        Out::Mem(bytes) => {
            let size = size(&bytes);
            if bytes.len() <= room {
                Shown::Mem { size, bytes }
            } else {
                Shown::Size(size)
            }
        }
        Out::Size(size) => Shown::Size(size),
        _ => Shown::Mem {
            size: size(&before),
            bytes: before,
        },
    }
}

/// What is shown of an output at its position.
fn shown(alloc: Global, place: OutputSlot, out: Out) -> Shown
    ensures { result ≡ shown_at place out }
{
    match place {
        OutputSlot::Nothing => Shown::Nothing,
        OutputSlot::Value => shown_value(0, 0, out),
        OutputSlot::ValueInOut(a, b) => shown_value(a, b, out),
        OutputSlot::Mem(room) => shown_memory(Bytes::empty(alloc), room as usize, out),
        OutputSlot::MemInOut(bytes) => {
            let room = bytes.len();
            shown_memory(bytes, room, out)
        }
    }
}

/// What a client is shown of the outputs of an entry.
pub fn deliver(alloc: Global, places: Places, outs: Outs) -> Outputs
    ensures { result ≡ shown_outputs places outs }
{
    Outputs {
        p0: shown(alloc, places.p0, outs.p0),
        p1: shown(alloc, places.p1, outs.p1),
        p2: shown(alloc, places.p2, outs.p2),
        p3: shown(alloc, places.p3, outs.p3),
    }
}
