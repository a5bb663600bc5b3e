//! The handles on one object, counted by their flags.

ghost use Rattle.std.specs.Prelude.{◌≡◌, position};
ghost use Rattle.share_rules.specs.Groups.{is_of};

use crate::uses::Uses;
use std::alloc::Global;
use std::marker::Model;
use tee_base::{Flags, NoMemory};

/// How many handles have these flags.
#[derive(Clone, Copy, Debug)]
pub struct Count {
    pub flags: Flags,
    pub handles: u64,
}

/// The handles on one object. Contracts see the flags of each.
#[derive(Debug, Drop)]
pub struct Group {
    counts: Vec<Count>,
}

impl Model for Group {
    ghost use Rattle.std.specs.Prelude.{List};
    ghost use Rattle.tee_base.specs.declared.codes.Flags.{Flags};
    ghost use Rattle.share_rules.specs.Groups.{flags_of, AreCounted};

    ghost Value = { List Flags };

    ghost view = { λ g. flags_of g.counts.items };

    ghost invariant = { λ g. AreCounted g.counts.items };
}

impl Group {
    ghost use Rattle.std.specs.Prelude.{◌≡◌, ◌∷◌, [], IsTrue, not, IfOk, OnOk, OnErr};
    ghost use Rattle.std.specs.List.{list_any};
    ghost use Rattle.share_rules.specs.Groups.{GainsFlags, has_some, is_same};
    ghost use Rattle.share_rules.specs.Sharing.{uses_of};

    /// One handle.
    pub fn of(alloc: Global, flags: Flags) -> Result<Group, NoMemory>
        ensures { IfOk result (λ group. group ≡ flags ∷ []) }
    {
        let mut counts = Vec::new(alloc);
        counts.push(Count { flags, handles: 1 })?;
        Ok(Group { counts })
    }

    /// One handle more. NoMemory changes nothing.
    pub fn add(&mut self, flags: Flags) -> Result<(), NoMemory>
        ensures ok { OnOk result (GainsFlags self.old flags self.new) }
        ensures unchanged { OnErr result (self.new ≡ self.old) }
    {
        let Some(place) = place_of(self.counts.as_slice(), flags) else {
            self.counts.push(Count { flags, handles: 1 })?;
            return Ok(());
        };
        let count = self.counts[place];
        let Some(handles) = count.handles.checked_add(1) else {
            return Err(NoMemory);
        };
        self.counts[place] = Count {
            flags: count.flags,
            handles,
        };
        Ok(())
    }

    /// One handle less. It takes no memory.
    pub fn take(&mut self, flags: Flags)
        requires { IsTrue (list_any (is_same flags) self.old) }
        ensures { GainsFlags self.new flags self.old }
    {
        let Some(place) = place_of(self.counts.as_slice(), flags) else {
            return;
        };
        let count = self.counts[place];
        if count.handles > 1 {
            self.counts[place] = Count {
                flags: count.flags,
                handles: count.handles - 1,
            };
        } else {
            let _last = self.counts.remove(place);
        }
    }

    /// Whether no handle is left.
    pub fn is_empty(&self) -> bool
        ensures { result ≡ not (has_some self.now) }
    {
        self.counts.is_empty()
    }

    /// What the handles and one more do together.
    pub fn uses_with(&self, flags: Flags) -> Uses
        ensures { result ≡ uses_of (flags ∷ self.now) }
    {
        let mut uses = Uses::of(flags);
        for count in &self.counts {
            uses.add(count.flags);
        }
        uses
    }
}

/// The place of the first count of these flags.
fn place_of(counts: &[Count], flags: Flags) -> Option<usize>
    ensures { result ≡ position (is_of flags) counts.now }
{
    counts.iter().position(|count| count.flags.0 == flags.0)
}
