//! Room for the bytes of an ask, which is taken before the machine runs: so want of memory changes nothing.

use std::alloc::Global;
use tee_base::NoMemory;

/// Empty vectors: two for the bytes of an ask, and one for each output. What isn't used of them is never touched.
#[derive(Drop)]
pub struct Room {
    pub first: Vec<u8>,
    pub second: Vec<u8>,
    pub p0: Vec<u8>,
    pub p1: Vec<u8>,
    pub p2: Vec<u8>,
    pub p3: Vec<u8>,
}

impl Room {
    ghost use Rattle.std.specs.Prelude.{IfOk};
    ghost use Rattle.c_app.specs.Rooms.{IsFree, IsRoom};

    fn free(alloc: Global, capacity: usize) -> Result<Vec<u8>, NoMemory>
        // An empty vector with the capacity.
        ensures { IfOk result (IsFree capacity) }
    {
        Ok(Vec::with_capacity(alloc, capacity)?)
    }

    /// Each vector has room for so many bytes.
    pub fn new(alloc: Global, capacity: usize) -> Result<Room, NoMemory>
        // Six empty vectors with the capacity.
        ensures { IfOk result (IsRoom capacity) }
    {
        Ok(Room {
            first: Room::free(alloc, capacity)?,
            second: Room::free(alloc, capacity)?,
            p0: Room::free(alloc, capacity)?,
            p1: Room::free(alloc, capacity)?,
            p2: Room::free(alloc, capacity)?,
            p3: Room::free(alloc, capacity)?,
        })
    }
}
