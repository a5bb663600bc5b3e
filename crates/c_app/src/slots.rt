//! Where an entry gives its outputs.

ghost use Rattle.std.specs.Prelude.{◌≡◌, ◌≤◌};
ghost use Rattle.tee_base.specs.declared.limits.TheConstants.{MAX_ASK_BYTES};
ghost use Rattle.app_api.specs.Params.{size_of};
ghost use Rattle.c_app.specs.Entering as rows;

use app_api::Param;

/// Where the output of one parameter comes from.
#[derive(Clone, Copy, Debug, PartialEq, Eq)]
pub enum Slot {
    /// The parameter gives none.
    Nothing,
    /// The two words of its `TEE_Param`.
    Value,
    /// The address of a buffer, and its bytes.
    Mem { address: u32, room: u32 },
}

/// The four of an entry.
#[derive(Clone, Copy, Debug, PartialEq, Eq)]
pub struct Slots {
    pub p0: Slot,
    pub p1: Slot,
    pub p2: Slot,
    pub p3: Slot,
}

impl Slots {
    /// Four times nothing.
    pub fn nothing() -> Slots
        // No parameter gives an output.
        ensures { result ≡ rows.no_slots }
    {
        Slots {
            p0: Slot::Nothing,
            p1: Slot::Nothing,
            p2: Slot::Nothing,
            p3: Slot::Nothing,
        }
    }
}

/// The output of one parameter, whose buffer lies at the address.
#[tactic(auto, unfolding(crate::specs::Entering::slot_of))]
pub fn slot_of(param: &Param, address: u32) -> Slot
    // The parameter is no larger than one may be.
    requires { size_of param.now ≤ MAX_ASK_BYTES }
    // The words for a value, the buffer for bytes that go out.
    ensures { result ≡ rows.slot_of param.now address }
{
    match param {
        Param::ValueOut | Param::ValueInOut(_, _) => Slot::Value,
        Param::MemOut(room) => Slot::Mem {
            address,
            room: *room,
        },
        Param::MemInOut(bytes) => Slot::Mem {
            address,
            room: bytes.len() as u32,
        },
        _ => Slot::Nothing,
    }
}
