// The bytes of a message that wait for more.

ghost use Rattle.std.specs.Prelude.{◌≤◌};

/// At most a block of bytes, at the front of a block.
#[derive(Clone, Copy)]
pub(crate) struct Waiting {
    pub(crate) bytes: [u8; 16],
    pub(crate) count: usize,
    ghost within: { count ≤ 16 },
}
