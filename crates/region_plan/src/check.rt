//! The rule that ties an inode to the map.

ghost use Rattle.std.specs.Prelude.{◌≡◌, ◌<◌, ℕ, List, IfOk};
ghost use Rattle.region_plan.specs.Chains.{AreChains};
ghost use Rattle.region_plan.specs.Layout.{layout};
ghost use Rattle.region_plan.specs.Inodes.{length_in};
ghost use Rattle.region_plan.specs.Places.{IsMapOf, entries_in};
ghost use Rattle.region_plan.specs.Regions.{has_data as holds_data};

use crate::chain::{Chains, are_first, first_links, have_leaves};
use crate::edit::blocks;
use crate::entry::Map;
use crate::form::Form;
use crate::inode::Inode;
use std::alloc::Global;
use tee_base::NoMemory;

/// Whether the data of an inode has each index once, and no other. It goes over the inode's own leaves alone.
pub(crate) fn has_data(
    alloc: Global,
    form: Form,
    map: &Map,
    chains: &Chains,
    inode: &Inode,
) -> Result<bool, NoMemory>
    requires inode { inode.now.number < (layout form).leaves }
    requires chains { AreChains (entries_in map.now) (layout form).leaves chains.now.last
        chains.now.next }
    ensures { (leaves : ℕ → List ℕ) → IsMapOf (layout form) leaves map.now
        → inode.now.length ≡ length_in (leaves inode.now.number)
        → IfOk result (λ has. has ≡ holds_data (layout form) leaves inode.now.number) }
{
    let count = blocks(inode.length) as usize;
    if count > form.leaves() {
        return Ok(false);
    }
    let firsts = first_links(alloc, form, map, chains, inode.number, count)?;
    let firsts = firsts.as_slice();
    if !are_first(form, map, chains, inode.number, firsts) {
        return Ok(false);
    }
    Ok(have_leaves(firsts))
}
