//! What changes a store.

use tee_base::Bytes;

/// One change of a store, which is made whole or not at all.
#[derive(Debug, Drop)]
pub enum Change {
    /// Keeps an object under an identifier. An object that is there is an obstacle, unless `overwrite` replaces it.
    Put {
        id: Bytes,
        kind: u32,
        usage: u32,
        secret: Bytes,
        content: Bytes,
        overwrite: bool,
    },
    /// Takes an object away.
    Delete {
        id: Bytes,
    },
    /// Moves an object to an identifier that no object has.
    Rename {
        id: Bytes,
        to: Bytes,
    },
    /// Writes bytes at a place of an object's content. A gap before the place is filled by zeros.
    Write {
        id: Bytes,
        at: u32,
        bytes: Bytes,
    },
    /// Cuts an object's content to a length, or fills it up with zeros.
    Truncate {
        id: Bytes,
        length: u32,
    },
}
