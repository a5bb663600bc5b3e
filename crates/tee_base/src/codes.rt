//! Return codes with their origins, and the flags of data objects.

/// A return code (TEE Internal Core API 1.3, section 3.3.3; TEE Client API 1.0, section 4.4.2).
#[derive(Clone, Copy, Debug, PartialEq, Eq, PartialOrd, Ord, Hash)]
pub struct Code(pub u32);

impl Code {
    pub const SUCCESS: Code = Code(0);

    pub const GENERIC: Code = Code(0xFFFF_0000);

    pub const ACCESS_DENIED: Code = Code(0xFFFF_0001);

    pub const CANCEL: Code = Code(0xFFFF_0002);

    pub const ACCESS_CONFLICT: Code = Code(0xFFFF_0003);

    pub const EXCESS_DATA: Code = Code(0xFFFF_0004);

    pub const BAD_FORMAT: Code = Code(0xFFFF_0005);

    pub const BAD_PARAMETERS: Code = Code(0xFFFF_0006);

    pub const BAD_STATE: Code = Code(0xFFFF_0007);

    pub const ITEM_NOT_FOUND: Code = Code(0xFFFF_0008);

    pub const NOT_IMPLEMENTED: Code = Code(0xFFFF_0009);

    pub const NOT_SUPPORTED: Code = Code(0xFFFF_000A);

    pub const NO_DATA: Code = Code(0xFFFF_000B);

    pub const OUT_OF_MEMORY: Code = Code(0xFFFF_000C);

    pub const BUSY: Code = Code(0xFFFF_000D);

    pub const COMMUNICATION: Code = Code(0xFFFF_000E);

    pub const SECURITY: Code = Code(0xFFFF_000F);

    pub const SHORT_BUFFER: Code = Code(0xFFFF_0010);

    pub const OVERFLOW: Code = Code(0xFFFF_300F);

    pub const TARGET_DEAD: Code = Code(0xFFFF_3024);

    pub const STORAGE_NO_SPACE: Code = Code(0xFFFF_3041);

    pub const MAC_INVALID: Code = Code(0xFFFF_3071);

    pub const TIME_NOT_SET: Code = Code(0xFFFF_5000);

    pub const TIME_NEEDS_RESET: Code = Code(0xFFFF_5001);

    pub const CORRUPT_OBJECT: Code = Code(0xF010_0001);

    pub const STORAGE_NOT_AVAILABLE: Code = Code(0xF010_0003);
}

/// Where a return code comes from (TEE Client API 1.0, section 4.4.3).
#[derive(Clone, Copy, Debug, PartialEq, Eq, Hash)]
pub enum Origin {
    /// The client's own library, before the runtime is reached.
    Api = 1,
    /// The way to the runtime.
    Comms = 2,
    /// The runtime itself.
    Tee = 3,
    /// The application's code.
    App = 4,
}

impl Origin {
    ghost use Rattle.std.specs.Prelude.{◌≡◌};
    ghost use Rattle.tee_base.specs.Codes.{number_of};

    /// The number that stands for the origin in the client API.
    pub fn number(self) -> u8
        ensures { result ≡ number_of self }
    {
        self as u8
    }
}

/// Flags of a data object's handle (TEE Internal Core API 1.3, section 5.7), as a word of bits.
#[derive(Clone, Copy, Debug, PartialEq, Eq, Hash)]
pub struct Flags(pub u32);

impl Flags {
    pub const ACCESS_READ: Flags = Flags(0x1);

    pub const ACCESS_WRITE: Flags = Flags(0x2);

    pub const ACCESS_WRITE_META: Flags = Flags(0x4);

    pub const SHARE_READ: Flags = Flags(0x10);

    pub const SHARE_WRITE: Flags = Flags(0x20);

    pub const OVERWRITE: Flags = Flags(0x400);
    /// All bits that have a meaning.
    pub const KNOWN: Flags = Flags(0x437);
}
