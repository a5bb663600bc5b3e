//! What the map of a region of the first form says, where all of its leaves are in memory.

ghost use Rattle.std.specs.Prelude.{◌≡◌, ◌<◌, ◌==◌, ◌&&◌, length};
ghost use Rattle.region_plan.specs.Layout.{layout};
ghost use Rattle.region_plan.specs.Entries.{entry_at, is_data_at as holds_index, is_data_of as holds_data, is_inode as holds_inode, is_used as in_use, is_well_formed};
ghost use Rattle.region_plan.specs.declared.form.Form.TheVariants.{One};
ghost use Rattle.v1_volume.specs.Checking.{leaf_in};

use region_plan::{Entry, Form, has_form, number_at};
use tee_base::limits::BLOCK_BYTES;

/// Leaves of a region of the first form.
pub(crate) const OLD_LEAVES: usize = 256;
/// The kind of an object's first leaf.
const INODE: u32 = 1;
/// The kind of a leaf with bytes of an object's content.
const DATA: u32 = 2;

/// The entry of a leaf.
pub(crate) fn entry_of(leaves: &[[u8; BLOCK_BYTES]], leaf: usize) -> Entry
    requires whole { length leaves.now ≡ 256 }
    requires leaf { leaf < 256 }
    ensures entry { result ≡ entry_at (layout One) (leaf_in leaves.now) leaf }
    ensures kind { result.kind < 256 }
    ensures inode { result.inode < 256 }
    ensures index { result.index < 65536 }
{
    Form::One.entry_of(number_at(&leaves[0], 4 * leaf))
}

/// Whether a leaf is an inode.
pub(crate) fn is_inode(leaves: &[[u8; BLOCK_BYTES]], leaf: usize) -> bool
    requires whole { length leaves.now ≡ 256 }
    requires leaf { leaf < 256 }
    ensures { result ≡ holds_inode (layout One) (leaf_in leaves.now) leaf }
{
    entry_of(leaves, leaf).kind == INODE
}

/// Whether a leaf is data.
pub(crate) fn is_data(leaves: &[[u8; BLOCK_BYTES]], leaf: usize) -> bool
    requires whole { length leaves.now ≡ 256 }
    requires leaf { leaf < 256 }
    ensures { result ≡ ((entry_at (layout One) (leaf_in leaves.now) leaf).kind == DATA) }
{
    entry_of(leaves, leaf).kind == DATA
}

/// Whether a leaf is in use.
pub(crate) fn is_used(leaves: &[[u8; BLOCK_BYTES]], leaf: usize) -> bool
    requires whole { length leaves.now ≡ 256 }
    requires leaf { leaf < 256 }
    ensures { result ≡ in_use (layout One) (leaf_in leaves.now) leaf }
{
    is_inode(leaves, leaf) || is_data(leaves, leaf)
}

/// Whether a leaf is data of an inode.
pub(crate) fn is_data_of(leaves: &[[u8; BLOCK_BYTES]], inode: usize, leaf: usize) -> bool
    requires whole { length leaves.now ≡ 256 }
    requires leaf { leaf < 256 }
    ensures { result ≡ holds_data (layout One) (leaf_in leaves.now) inode leaf }
{
    let entry = entry_of(leaves, leaf);
    entry.kind == DATA && entry.inode as usize == inode
}

/// Whether a leaf is data of an inode at an index.
pub(crate) fn is_data_at(
    leaves: &[[u8; BLOCK_BYTES]],
    inode: usize,
    index: u32,
    leaf: usize,
) -> bool
    requires whole { length leaves.now ≡ 256 }
    requires leaf { leaf < 256 }
    ensures { result ≡ holds_index (layout One) (leaf_in leaves.now) inode index leaf }
{
    is_data_of(leaves, inode, leaf) && entry_of(leaves, leaf).index == index
}

/// Whether the entry of a leaf follows the rules.
pub(crate) fn is_formed(leaves: &[[u8; BLOCK_BYTES]], leaf: usize) -> bool
    requires whole { length leaves.now ≡ 256 }
    requires leaf { leaf < 256 }
    ensures { result ≡ is_well_formed (layout One) (leaf_in leaves.now) leaf }
{
    let entry = entry_of(leaves, leaf);
    let names_inode = is_inode(leaves, entry.inode as usize);
    has_form(Form::One, leaf, entry, names_inode)
}
