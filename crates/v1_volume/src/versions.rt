//! Which versions of a volume are accepted.

use epoch::Format;
use tree_paths::first_version::FIRST_VERSION;
use tree_paths::places::{TREE_BLOCKS, TREE_VERSION};

/// What an opening takes of the form of a volume: both versions, and the blocks of the one that is written.
pub const VERSIONS: Format = Format {
    oldest: FIRST_VERSION,
    newest: TREE_VERSION,
    blocks: TREE_BLOCKS,
};
