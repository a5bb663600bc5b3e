//! What asks about objects touch in memory, as it is between events: no rename is pending.

use crate::numbered::{NumberedKey, NumberedList, Walk};
use crate::outcome::{Outcome, done};
use crate::source::KeySource;
use crate::{keyring, walks};
use handle_table::{Handle, HandleAnswer, HandleTable};
use std::alloc::Global;
use std::marker::Model;
use store_api::{AppStore, Change, StoreAnswer};
use tee_base::{Bytes, Flags, NoMemory, limits};
use transient_obj::Transient;

/// The object handles, the keys in memory and the enumerators of all instances of an application. Each handle is on an
/// identifier of at most 64 bytes, or on a key.
#[derive(Drop)]
pub struct Held {
    table: HandleTable,
    keys: Vec<NumberedKey>,
    lists: Vec<NumberedList>,
}

impl Model for Held {
    ghost use Rattle.object_asks.specs.Held.{Held, IsHeld};

    ghost Value = { Held };

    ghost view = { λ h. record { handles = h.table.handles; keys = h.keys.items; lists = h.lists.items } };

    ghost invariant = { λ h. IsHeld h.table h.keys.items h.lists.items };
}

impl Held {
    ghost use Rattle.std.specs.Prelude.{◌≡◌, IsTrue, IfOk, OnOk, OnErr, IfSome, option_map, is_some, false};
    ghost use Rattle.handle_table.specs.Handles.{may_open, is_open, is_full, is_there, free_number, handle_at};
    ghost use Rattle.store_api.specs.Limits.{IsIdentifier};
    ghost use Rattle.object_asks.specs.Handles.{without_rename, HasIdentifier};
    ghost use Rattle.object_asks.specs.Held.{nothing_held, handle_added, handle_sought, handle_closed, instance_closed, key_added, key_at, key_set, may_rename, transient_at, walk_at};
    ghost use Rattle.object_asks.specs.Lists.{free_list, has_all_lists, list_added, list_freed, after_walk};
    ghost use Rattle.object_asks.specs.Sources.{HasSource, key_source};
    ghost use Rattle.std.specs.Prelude.{true};
    ghost use Rattle.store_api.specs.Stores.{change};
    ghost use Rattle.store_api.specs.declared.change.Change.TheVariants.{Rename as renaming};
    ghost use Rattle.object_asks.specs.Asks.{renamed_by};
    ghost use Rattle.object_asks.specs.Serving.{IsGiven, objects_in};

    /// Nothing. It takes no memory.
    pub fn new(alloc: Global) -> Held
        ensures { result ≡ nothing_held }
    {
        Held {
            table: HandleTable::new(alloc),
            keys: Vec::new(alloc),
            lists: Vec::new(alloc),
        }
    }

    /// Whether a handle of any instance is on the object.
    pub(crate) fn is_open(&self, id: &[u8]) -> bool
        ensures { result ≡ is_open (without_rename self.now.handles) id.now }
    {
        self.table.is_open(id)
    }

    /// Whether a handle with these flags may be opened on the object, beside those of all instances.
    pub(crate) fn may_open(&self, id: &[u8], flags: Flags) -> bool
        ensures { result ≡ may_open (without_rename self.now.handles) id.now flags }
    {
        self.table.may_open(id, flags)
    }

    /// Whether the instance has 16 handles.
    pub(crate) fn is_full(&self, instance: u8) -> bool
        ensures { result ≡ is_full (without_rename self.now.handles) instance }
    {
        self.table.is_full(instance)
    }

    /// What the instance's handle of this number is for.
    pub(crate) fn get(&self, instance: u8, number: u32) -> Option<&Handle>
        ensures handle { option_map (λ handle. handle.now) result
            ≡ handle_at (without_rename self.now.handles) instance number }
        ensures identifier { IfSome result (λ handle. HasIdentifier handle.now) }
        ensures there { is_some result
            ≡ is_there (without_rename self.now.handles) instance number }
    {
        self.table.get(instance, number)
    }

    /// The instance's key in memory of this number.
    pub(crate) fn key(&self, instance: u8, number: u32) -> Option<&Transient>
        ensures { option_map (λ key. key.now) result ≡ key_at self.now instance number }
    {
        keyring::key_of(self.keys.as_slice(), instance, number)
    }

    /// The key that the instance's handle of this number is on, if it is on one.
    pub(crate) fn transient(&self, instance: u8, number: u32) -> Option<&Transient>
        ensures { option_map (λ key. key.now) result ≡ transient_at self.now instance number }
    {
        match self.get(instance, number) {
            Some(Handle::Transient) => self.key(instance, number),
            _ => None,
        }
    }

    /// Adds a key with a handle on it, and answers its number. Want of memory changes nothing.
    pub(crate) fn add_key(&mut self, instance: u8, key: Transient) -> Result<u32, NoMemory>
        requires { is_full (without_rename self.old.handles) instance ≡ false }
        ensures number { IfOk result (λ n. n ≡ free_number self.old.handles instance) }
        ensures ok { OnOk result (self.new ≡ key_added self.old instance key) }
        ensures unchanged { OnErr result (self.new ≡ self.old) }
    {
        let number = match self.table.add_transient(instance) {
            Ok(number) => number,
            Err(HandleAnswer::NoMemory) => return Err(NoMemory),
            Err(HandleAnswer::Full) => unreachable!(),
        };
        let Ok(()) = keyring::add(&mut self.keys, instance, number, key) else {
            self.table.close(instance, number);
            return Err(NoMemory);
        };
        Ok(number)
    }

    /// The instance's key of this number is this one from now on.
    pub(crate) fn set_key(&mut self, instance: u8, number: u32, key: Transient)
        ensures { self.new ≡ key_set self.old instance number key }
    {
        keyring::set(&mut self.keys, instance, number, key);
    }

    /// Where the object's kind, usage and secret are.
    pub(crate) fn source(
        &self,
        alloc: Global,
        instance: u8,
        object: u32,
    ) -> Result<KeySource, NoMemory>
        ensures source { IfOk result (λ source. source ≡ key_source self.now instance object) }
        ensures bounds { IfOk result (λ source. HasSource source) }
    {
        match self.get(instance, object) {
            None => Ok(KeySource::NoKey),
            Some(Handle::Persistent { id, .. }) => Ok(KeySource::InStore(id.copy(alloc)?)),
            Some(Handle::Transient) => Ok(keyring::memory_source(self.key(instance, object))),
        }
    }

    /// Whether the instance has a handle of this number.
    pub(crate) fn is_there(&self, instance: u8, number: u32) -> bool
        ensures { result ≡ is_there (without_rename self.now.handles) instance number }
    {
        self.get(instance, number).is_some()
    }

    /// Adds a handle at the object's first byte, and answers its number. Want of memory changes nothing.
    pub(crate) fn add(&mut self, instance: u8, id: &[u8], flags: Flags) -> Result<u32, NoMemory>
        requires identifier { IsIdentifier id.now }
        requires may_open { IsTrue (may_open (without_rename self.old.handles) id.now flags) }
        requires room { is_full (without_rename self.old.handles) instance ≡ false }
        ensures number { IfOk result (λ n. n ≡ free_number self.old.handles instance) }
        ensures ok { OnOk result (self.new ≡ handle_added self.old instance id.now flags) }
        // Closed again, it leaves all as it was.
        ensures undone { IfOk result (λ n. handle_closed self.new instance n ≡ self.old) }
        ensures unchanged { OnErr result (self.new ≡ self.old) }
    {
        match self.table.add(instance, id, flags) {
            Ok(number) => Ok(number),
            Err(HandleAnswer::NoMemory) => Err(NoMemory),
            Err(HandleAnswer::Full) => unreachable!(),
        }
    }

    /// Sets where the next read or write of the handle begins.
    pub(crate) fn seek(&mut self, instance: u8, number: u32, position: u32)
        requires { IsTrue (is_there (without_rename self.old.handles) instance number) }
        ensures { self.new ≡ handle_sought self.old instance number position }
    {
        self.table.seek(instance, number, position);
    }

    /// Asks the store to move the object to another identifier, and the handle goes with it. Where the store refuses, it stays.
    pub(crate) fn rename<T: AppStore>(
        &mut self,
        store: &mut T,
        instance: u8,
        number: u32,
        id: Bytes,
        to: Bytes,
    ) -> Result<Outcome, StoreAnswer>
        requires id { IsIdentifier id }
        requires to { IsIdentifier to }
        requires meta { IsTrue (may_rename self.old instance number id) }
        requires free { is_open (without_rename self.old.handles) to ≡ false }
        ensures { let before = objects_in self.old (T.keeper.contents store.old)
            in IsGiven T.keeper result
            (renamed_by before instance number to
            (change before.store (renaming id to)))
            true self.old self.old self.new store.old store.new }
    {
        self.table.start_rename(instance, number, to.as_slice())?;
        let change = Change::Rename { id, to };
        let answer = store.apply(&change);
        drop(change);
        match answer {
            Ok(()) => {
                self.table.end_rename(true);
                Ok(done())
            }
            Err(answer) => {
                self.table.end_rename(false);
                Err(answer)
            }
        }
    }

    /// Closes the handle. A key that it is on goes with it.
    pub(crate) fn close(&mut self, instance: u8, number: u32)
        requires { IsTrue (is_there (without_rename self.old.handles) instance number) }
        ensures { self.new ≡ handle_closed self.old instance number }
    {
        self.table.close(instance, number);
        keyring::take_key(&mut self.keys, instance, number);
    }

    /// Whether the instance has 4 enumerators.
    pub(crate) fn has_all_lists(&self, instance: u8) -> bool
        ensures { result ≡ has_all_lists self.now.lists instance }
    {
        walks::count_of(self.lists.as_slice(), instance) >= limits::MAX_ENUMERATORS
    }

    /// Adds an enumerator, and answers its number. Want of memory changes nothing.
    pub(crate) fn add_list(&mut self, instance: u8) -> Result<u32, NoMemory>
        requires { has_all_lists self.old.lists instance ≡ false }
        ensures number { IfOk result (λ n. n ≡ free_list self.old.lists instance) }
        ensures ok { OnOk result (self.new ≡ list_added self.old instance) }
        ensures unchanged { OnErr result (self.new ≡ self.old) }
    {
        walks::add(&mut self.lists, instance)
    }

    /// How far the instance's enumerator of this number has come.
    pub(crate) fn walk(&self, instance: u8, number: u32) -> Option<&Walk>
        ensures { option_map (λ walk. walk.now) result ≡ walk_at self.now instance number }
    {
        walks::walk_of(self.lists.as_slice(), instance, number)
    }

    /// The enumerator has come so far.
    pub(crate) fn set_walk(&mut self, instance: u8, number: u32, walk: Walk)
        ensures { self.new ≡ after_walk self.old instance number walk }
    {
        walks::set(&mut self.lists, instance, number, walk);
    }

    /// The enumerator goes.
    pub(crate) fn free_list(&mut self, instance: u8, number: u32)
        ensures { self.new ≡ list_freed self.old instance number }
    {
        walks::take_out(&mut self.lists, instance, number);
    }

    /// Closes all that the instance has. It takes no memory.
    pub fn close_instance(&mut self, instance: u8)
        ensures { self.new ≡ instance_closed self.old instance }
    {
        self.table.close_all(instance);
        keyring::take_keys(&mut self.keys, instance);
        walks::take_lists(&mut self.lists, instance);
    }
}
