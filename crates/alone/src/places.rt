//! The output positions of a call: where outputs are delivered, and what stands there until then.

ghost use Rattle.std.specs.Prelude.{◌≡◌};
ghost use Rattle.alone.specs.Places.{no_places};

use tee_base::Bytes;

/// What may be delivered at one position (TEE Internal Core API 1.3, section 4.3.6.4).
#[derive(Debug, Drop)]
pub enum OutputSlot {
    /// No output is delivered here.
    Nothing,
    Value,
    /// Two numbers that stay where no value is given.
    ValueInOut(u32, u32),
    /// Memory with room for so many bytes.
    Mem(u32),
    /// Memory with these bytes, which stay where none are given. Their number is the room.
    MemInOut(Bytes),
}

/// The four positions of a call.
#[derive(Debug, Drop)]
pub struct Places {
    pub p0: OutputSlot,
    pub p1: OutputSlot,
    pub p2: OutputSlot,
    pub p3: OutputSlot,
}

impl Places {
    /// No output is delivered anywhere.
    pub fn none() -> Places
        ensures { result ≡ no_places }
    {
        Places {
            p0: OutputSlot::Nothing,
            p1: OutputSlot::Nothing,
            p2: OutputSlot::Nothing,
            p3: OutputSlot::Nothing,
        }
    }
}
