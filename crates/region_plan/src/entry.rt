//! The map of a region: what each leaf is.

ghost use Rattle.std.specs.Prelude.{◌≡◌, ◌≤◌, ◌<◌, ◌+◌, ◌*◌, ◌==◌, ◌&&◌, nat_lt, ℕ, IfOk, if◌then◌else◌};
ghost use Rattle.region_plan.specs.Layout.{layout};
ghost use Rattle.region_plan.specs.Entries.{follows, form_of, is_zero as has_zeros, number_in};
ghost use Rattle.region_plan.specs.Places.{AreWritable, entries_in, free_entry, with_entry};
ghost use Rattle.region_plan.specs.Plans.{IsMapLeaf};
ghost use Rattle.region_plan.specs.declared.form.Form.TheVariants.{Two};

use crate::bytes::{number_at, put};
use crate::form::{Form, MOST_LEAVES, number_of};
use std::alloc::Global;
use std::marker::Model;
use tee_base::NoMemory;
use tee_base::limits::BLOCK_BYTES;

/// The kind of a free leaf.
pub(crate) const FREE: u32 = 0;
/// The kind of an object's first leaf.
pub(crate) const INODE: u32 = 1;
/// The kind of a leaf with bytes of an object's content.
pub(crate) const DATA: u32 = 2;
/// Entries of one leaf of the map.
pub(crate) const MAP_ENTRIES: usize = 256;
/// Bytes of an entry.
pub(crate) const ENTRY_BYTES: usize = 4;

/// What the map says of a leaf: its kind, the leaf of its inode, and its index among the inode's data.
#[derive(Clone, Copy)]
pub struct Entry {
    pub kind: u32,
    pub inode: u32,
    pub index: u32,
}

/// The entry of a free leaf.
pub(crate) const FREE_ENTRY: Entry = Entry {
    kind: FREE,
    inode: 0,
    index: 0,
};

/// The map of a region: an entry for each leaf that a region may have.
#[derive(Drop)]
pub(crate) struct Map {
    entries: Vec<Entry>,
}

impl Model for Map {
    ghost use Rattle.std.specs.Prelude.{◌≡◌, List, length};
    ghost use Rattle.region_plan.specs.declared.entry.Entry.{Entry};

    ghost Value = { List Entry };

    ghost view = { λ m. m.entries.items };

    ghost invariant = { λ m. length m.entries.items ≡ 1024 };
}

impl Map {
    /// A map of free leaves.
    pub fn free(alloc: Global) -> Result<Map, NoMemory>
        ensures { IfOk result (λ map. (i : ℕ) → entries_in map i ≡ free_entry) }
    {
        Ok(Map {
            entries: Vec::from_elem(alloc, FREE_ENTRY, MOST_LEAVES)?,
        })
    }

    /// Another map of the same entries.
    pub fn copy(&self, alloc: Global) -> Result<Map, NoMemory>
        ensures { IfOk result (λ map. map ≡ self.now) }
    {
        Ok(Map {
            entries: Vec::from_slice(alloc, &self.entries)?,
        })
    }
}

/// The entry of a leaf, free where there is none.
pub(crate) fn entry_in(map: &Map, leaf: usize) -> Entry
    ensures { result ≡ entries_in map.now leaf }
{
    if leaf < MOST_LEAVES {
        map.entries[leaf]
    } else {
        FREE_ENTRY
    }
}

/// Sets the entry of a leaf.
pub(crate) fn set_entry(map: &mut Map, leaf: usize, entry: Entry)
    requires { leaf < 1024 }
    ensures { (i : ℕ) → entries_in map.new i ≡ with_entry leaf entry (entries_in map.old) i }
{
    map.entries[leaf] = entry;
}

/// Whether an entry is zero.
fn is_zero(entry: Entry) -> bool
    ensures { result ≡ has_zeros entry }
{
    entry.kind == FREE && (entry.inode == 0 && entry.index == 0)
}

/// Whether an entry has the form of its kind, where it is known if it is named.
fn fits_kind(leaf: usize, entry: Entry, named: bool) -> bool
    ensures { result ≡ form_of leaf entry named }
{
    if entry.kind == FREE {
        return entry.inode == 0 && entry.index == 0;
    }
    if entry.kind == INODE {
        return entry.inode as usize == leaf && entry.index == 0;
    }
    entry.kind == DATA && named
}

/// Whether the entry of a leaf follows the rules, where it is known if the leaf that it names is an inode.
pub fn has_form(form: Form, leaf: usize, entry: Entry, names_inode: bool) -> bool
    ensures { result ≡ (if nat_lt leaf (layout form).map_leaves then has_zeros entry
        else form_of leaf entry (names_inode && nat_lt entry.index (layout form).indexes)) }
{
    if leaf < form.map_leaves() {
        return is_zero(entry);
    }
    fits_kind(leaf, entry, names_inode && entry.index < form.indexes())
}

/// Whether the entry of a leaf follows the rules.
pub(crate) fn is_well_formed(form: Form, map: &Map, leaf: usize) -> bool
    ensures { result ≡ follows (layout form) (entries_in map.now) leaf }
{
    let entry = entry_in(map, leaf);
    let inode = entry_in(map, entry.inode as usize);
    has_form(form, leaf, entry, inode.kind == INODE)
}

/// Takes the entries of a leaf of the map.
pub(crate) fn take_entries(form: Form, leaf: usize, block: &[u8; BLOCK_BYTES], map: &mut Map)
    requires { leaf < 4 }
    ensures taken { IsMapLeaf (layout form) map.new leaf block.now }
    ensures before { (i : ℕ) → i < 256 * leaf → entries_in map.new i ≡ entries_in map.old i }
    ensures behind { (i : ℕ) → 256 * leaf + 256 ≤ i
        → entries_in map.new i ≡ entries_in map.old i }
    ensures inodes { ((i : ℕ) → (entries_in map.old i).inode < (layout form).leaves)
        → (i : ℕ) → (entries_in map.new i).inode < (layout form).leaves }
{
    for place in 0..MAP_ENTRIES {
        let number = number_at(block, ENTRY_BYTES * place);
        set_entry(map, MAP_ENTRIES * leaf + place, form.entry_of(number));
    }
}

/// The bytes of a leaf of the map.
pub(crate) fn map_leaf(map: &Map, leaf: usize) -> [u8; BLOCK_BYTES]
    requires leaf { leaf < (layout Two).map_leaves }
    requires few { leaf < 4 }
    requires writable { AreWritable (layout Two) map.now }
    ensures { IsMapLeaf (layout Two) map.now leaf result }
{
    let mut block = [0; BLOCK_BYTES];
    for place in 0..MAP_ENTRIES {
        let number = number_of(entry_in(map, MAP_ENTRIES * leaf + place));
        put(&mut block, ENTRY_BYTES * place, &number.to_le_bytes());
    }
    block
}
