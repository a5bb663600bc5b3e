//! References of a call to blocks of shared memory, and the ways that bytes go through them.

use crate::param::Param;

/// Which ways bytes may go (TEE Client API 1.0, section 4.5, `TEEC_RegisterSharedMemory`): the memory flags of a block, and
/// the direction of a reference.
#[derive(Clone, Copy, Debug, PartialEq, Eq)]
pub enum Direction {
    /// The application reads.
    Input,
    /// The application writes.
    Output,
    /// The application reads and writes.
    Both,
}

impl Direction {
    ghost use Rattle.std.specs.Prelude.{◌≡◌};
    ghost use Rattle.app_api.specs.References.{allows, allows_way, direction_of};

    /// The direction of these memory flags, or of this way, if they are 1, 2 or 3.
    pub fn of_flags(flags: u32) -> Option<Direction>
        ensures { result ≡ direction_of flags }
    {
        match flags {
            1 => Some(Direction::Input),
            2 => Some(Direction::Output),
            3 => Some(Direction::Both),
            _ => None,
        }
    }

    /// Whether a block with these flags may be referred to in that direction.
    pub fn allows(self, direction: Direction) -> bool
        ensures { result ≡ allows self direction }
    {
        match (self, direction) {
            (Direction::Both, _)
            | (Direction::Input, Direction::Input)
            | (Direction::Output, Direction::Output) => true,
            (Direction::Input | Direction::Output, _) => false,
        }
    }

    /// The same of a way, which may be no direction.
    pub fn allows_way(self, way: u8) -> bool
        ensures { result ≡ allows_way self (direction_of way) }
    {
        match Direction::of_flags(u32::from(way)) {
            None => false,
            Some(direction) => self.allows(direction),
        }
    }
}

/// A reference of a call to a block of its client (TEE Client API 1.0, section 4.3, `TEEC_RegisteredMemoryReference`).
#[derive(Clone, Copy, Debug, PartialEq, Eq)]
pub enum Reference {
    /// The whole block, in the direction that its flags are.
    Whole {
        block: u32,
    },
    /// So many bytes from a place on, as an input (1), an output (2) or both (3).
    Part {
        block: u32,
        way: u8,
        at: u32,
        size: u32,
    },
}

impl Reference {
    ghost use Rattle.std.specs.Prelude.{◌≡◌};
    ghost use Rattle.app_api.specs.Params.{param_of_reference};
    ghost use Rattle.app_api.specs.References.{number_of, start_of};

    /// The number of its block.
    pub fn block(&self) -> u32
        ensures { result ≡ number_of self.now }
    {
        match self {
            Reference::Whole { block } | Reference::Part { block, .. } => *block,
        }
    }

    /// Where it begins in its block.
    pub fn start(&self) -> u32
        ensures { result ≡ start_of self.now }
    {
        match self {
            Reference::Whole { .. } => 0,
            Reference::Part { at, .. } => *at,
        }
    }

    /// The parameter that it is.
    pub fn param(&self) -> Param
        ensures { result ≡ param_of_reference self.now }
    {
        match self {
            Reference::Whole { block } => Param::Whole(*block),
            Reference::Part {
                block,
                way,
                at,
                size,
            } => Param::Part {
                block: *block,
                way: *way,
                at: *at,
                size: *size,
            },
        }
    }
}

/// The references that a call's four parameters are, where they are some.
#[derive(Clone, Copy, Debug, PartialEq, Eq)]
pub struct References {
    pub p0: Option<Reference>,
    pub p1: Option<Reference>,
    pub p2: Option<Reference>,
    pub p3: Option<Reference>,
}

/// Whether it is a reference to this block.
fn names(reference: Option<Reference>, block: u32) -> bool
    ensures { result ≡ names block reference }
{
    match reference {
        None => false,
        Some(reference) => reference.block() == block,
    }
}

ghost use Rattle.std.specs.Prelude.{◌≡◌};
ghost use Rattle.app_api.specs.References.{names};

impl References {
    ghost use Rattle.std.specs.Prelude.{◌≡◌};
    ghost use Rattle.app_api.specs.References.{name_block, no_references};

    /// No parameter is a reference.
    pub fn none() -> References
        ensures { result ≡ no_references }
    {
        References {
            p0: None,
            p1: None,
            p2: None,
            p3: None,
        }
    }

    /// Whether one of them is to this block.
    pub fn name(&self, block: u32) -> bool
        ensures { result ≡ name_block block self.now }
    {
        names(self.p0, block)
            || names(self.p1, block)
            || names(self.p2, block)
            || names(self.p3, block)
    }
}
