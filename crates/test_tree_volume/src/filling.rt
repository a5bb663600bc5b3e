//! Which leaves the tests write, and what these are filled with before a commit that may be interrupted, and behind it.

ghost use Rattle.std.specs.Prelude.{◌≡◌, ◌<◌, ◌+◌, ◌*◌};
ghost use Rattle.test_tree_volume.specs.declared.filling.TheConstants.{OLD, NEW, MOST};

/// What the leaves are filled with at sequence 2.
pub const OLD: u8 = 0x11;

/// What the commit to sequence 3 fills them with.
pub const NEW: u8 = 0x22;

/// The most leaves that a commit names.
pub const MOST: u16 = 20;

/// What a leaf that the commit names has to be filled with at a sequence: behind sequence 2 the commit came through.
pub fn byte_at(sequence: u64) -> u8
    ensures old { sequence ≡ 2 → result ≡ OLD }
    ensures new { sequence ≡ 3 → result ≡ NEW }
{
    if sequence == 2 { OLD } else { NEW }
}

/// The number of one of the leaves. No two are under one group of sixteen, and they are under all four bands of 256.
pub fn number_of(index: u16) -> u16
    requires { index < MOST }
    ensures { result ≡ 5 + 51 * index }
{
    5 + 51 * index
}
