//! Pieces of a block.
ghost use Rattle.std.specs.Prelude.{◌≡◌, ◌≤◌, ◌+◌, length};
ghost use Rattle.epoch.specs.Parts.{part, with_bytes_at};

/// Writes bytes into others, from a place on.
pub fn put(into: &mut [u8], at: usize, from: &[u8])
    requires { at + length from.now ≤ length into.old }
    ensures { into.new ≡ with_bytes_at at from.now into.old }
{
    into[at..at + from.len()].copy_from_slice(from);
}

/// Four bytes from a place on.
pub fn four_at(bytes: &[u8], at: usize) -> [u8; 4]
    requires { at + 4 ≤ length bytes.now }
    ensures { result ≡ part at 4 bytes.now }
{
    let mut piece = [0; 4];
    piece.copy_from_slice(&bytes[at..at + 4]);
    piece
}

/// Eight bytes from a place on.
pub fn eight_at(bytes: &[u8], at: usize) -> [u8; 8]
    requires { at + 8 ≤ length bytes.now }
    ensures { result ≡ part at 8 bytes.now }
{
    let mut piece = [0; 8];
    piece.copy_from_slice(&bytes[at..at + 8]);
    piece
}

/// Sixteen bytes from a place on.
pub fn sixteen_at(bytes: &[u8], at: usize) -> [u8; 16]
    requires { at + 16 ≤ length bytes.now }
    ensures { result ≡ part at 16 bytes.now }
{
    let mut piece = [0; 16];
    piece.copy_from_slice(&bytes[at..at + 16]);
    piece
}

/// Thirty-two bytes from a place on.
pub fn tag_at(bytes: &[u8], at: usize) -> [u8; 32]
    requires { at + 32 ≤ length bytes.now }
    ensures { result ≡ part at 32 bytes.now }
{
    let mut piece = [0; 32];
    piece.copy_from_slice(&bytes[at..at + 32]);
    piece
}
