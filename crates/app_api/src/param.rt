//! Parameters of a client's call.

ghost use Rattle.std.specs.Prelude.{◌≡◌, IfOk, MatchResult, None, Some};
ghost use Rattle.app_api.specs.Params.{kind_of, size_of, is_oversized, first_oversized, no_params, reference_of, references_of};

use crate::reference::{Reference, References};
use std::alloc::Global;
use tee_base::{Bytes, NoMemory, limits};
use thiserror::Error;

/// One parameter (TEE Client API 1.0, section 4.3.7; TEE Internal Core API 1.3, section 4.3.6).
#[derive(Debug, Drop)]
pub enum Param {
    Nothing,
    ValueIn(u32, u32),
    ValueOut,
    ValueInOut(u32, u32),
    /// A memory reference that the application reads.
    MemIn(Bytes),
    /// A memory reference of so many bytes that the application writes.
    MemOut(u32),
    /// A memory reference that the application reads, and writes up to its length.
    MemInOut(Bytes),
    /// A whole block of shared memory. It is one of the three above when an entry begins, as its block's flags say.
    Whole(u32),
    /// A part of a block: so many bytes from a place on, as an input (1), an output (2) or both (3). It is one of the three
    /// above when an entry begins.
    Part {
        block: u32,
        way: u8,
        at: u32,
        size: u32,
    },
}

impl Param {
    /// The number of the parameter's type (TEE Internal Core API 1.3, table 4-9; of a reference TEE Client API 1.0, table 4-6).
    pub fn kind(&self) -> u8
        ensures { result ≡ kind_of self.now }
    {
        match self {
            Param::Nothing => 0,
            Param::ValueIn(_, _) => 1,
            Param::ValueOut => 2,
            Param::ValueInOut(_, _) => 3,
            Param::MemIn(_) => 5,
            Param::MemOut(_) => 6,
            Param::MemInOut(_) => 7,
            Param::Whole(_) => 0xC,
            // A way is 1, 2 or 3; a call with another is refused.
            Param::Part { way, .. } => 0xC_u8.wrapping_add(*way),
        }
    }

    /// How many bytes the memory reference has, and none where it is no memory reference.
    pub fn size(&self) -> usize
        ensures { result ≡ size_of self.now }
    {
        match self {
            Param::MemIn(bytes) | Param::MemInOut(bytes) => bytes.len(),
            Param::MemOut(room) => *room as usize,
            Param::Part { size, .. } => *size as usize,
            _ => 0,
        }
    }

    /// The reference that it is, if it is one.
    pub fn reference(&self) -> Option<Reference>
        ensures { result ≡ reference_of self.now }
    {
        match self {
            Param::Whole(block) => Some(Reference::Whole { block: *block }),
            Param::Part {
                block,
                way,
                at,
                size,
            } => Some(Reference::Part {
                block: *block,
                way: *way,
                at: *at,
                size: *size,
            }),
            _ => None,
        }
    }

    /// Another of it.
    pub fn copy(&self, alloc: Global) -> Result<Param, NoMemory>
        ensures { IfOk result (λ copy. copy ≡ self.now) }
    {
        Ok(match self {
            Param::Nothing => Param::Nothing,
            Param::ValueIn(a, b) => Param::ValueIn(*a, *b),
            Param::ValueOut => Param::ValueOut,
            Param::ValueInOut(a, b) => Param::ValueInOut(*a, *b),
            Param::MemIn(bytes) => Param::MemIn(bytes.copy(alloc)?),
            Param::MemOut(room) => Param::MemOut(*room),
            Param::MemInOut(bytes) => Param::MemInOut(bytes.copy(alloc)?),
            Param::Whole(block) => Param::Whole(*block),
            Param::Part {
                block,
                way,
                at,
                size,
            } => Param::Part {
                block: *block,
                way: *way,
                at: *at,
                size: *size,
            },
        })
    }

    fn is_too_large(&self) -> bool
        ensures { result ≡ is_oversized self.now }
    {
        self.size() > limits::MAX_ASK_BYTES as usize
    }
}

/// The parameter of this index is a memory reference of more than 524,288 bytes, the first that is.
#[derive(Clone, Copy, Debug, PartialEq, Eq, Error)]
#[error("parameter {0} is too large")]
pub struct TooLarge(pub u8);

/// The four parameters of a call.
#[derive(Debug, Drop)]
pub struct Params {
    pub p0: Param,
    pub p1: Param,
    pub p2: Param,
    pub p3: Param,
}

impl Params {
    /// Four times nothing.
    pub fn nothing() -> Params
        ensures { result ≡ no_params }
    {
        Params {
            p0: Param::Nothing,
            p1: Param::Nothing,
            p2: Param::Nothing,
            p3: Param::Nothing,
        }
    }

    /// The references that they are.
    pub fn references(&self) -> References
        ensures { result ≡ references_of self.now }
    {
        References {
            p0: self.p0.reference(),
            p1: self.p1.reference(),
            p2: self.p2.reference(),
            p3: self.p3.reference(),
        }
    }

    /// Whether each memory reference has at most 524,288 bytes.
    pub fn check(&self) -> Result<(), TooLarge>
        ensures { MatchResult result (λ _. first_oversized self.now ≡ None) (λ e.
            first_oversized self.now ≡ Some e.0) }
    {
        if self.p0.is_too_large() {
            Err(TooLarge(0))
        } else if self.p1.is_too_large() {
            Err(TooLarge(1))
        } else if self.p2.is_too_large() {
            Err(TooLarge(2))
        } else if self.p3.is_too_large() {
            Err(TooLarge(3))
        } else {
            Ok(())
        }
    }
}
