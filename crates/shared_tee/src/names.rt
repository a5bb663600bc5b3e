//! How cells are named.

/// The name of the storage's cell. An application's cell is named by its place.
pub const STORAGE_CELL: u32 = 16;
