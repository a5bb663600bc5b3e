//! What waits in an instance.

ghost use Rattle.std.specs.Prelude.{◌≡◌};
ghost use Rattle.object_asks.specs.Asks.{may_need_store};
ghost use Rattle.alone.specs.Machine.{Machine};
ghost use Rattle.alone.specs.Step.{needs_store, of_running};
ghost use Rattle.app_side.specs.Represents.{Represents};
ghost use Rattle.app_side.specs.Storeless.{wants_store};

use crate::side::AppSide;
use alone::{ActiveEntry, Waits, place_of};
use app_api::{Application, Ask};

/// Whether the ask may need the store.
fn may_need_store(ask: &Ask) -> bool
    ensures { result ≡ may_need_store ask.now }
{
    matches!(
        ask,
        Ask::ObjOpen { .. }
            | Ask::ObjCreate { .. }
            | Ask::ObjDelete { .. }
            | Ask::ObjRename { .. }
            | Ask::ObjInfo { .. }
            | Ask::ObjRead { .. }
            | Ask::ObjWrite { .. }
            | Ask::ObjTruncate { .. }
            | Ask::ObjSeek { .. }
            | Ask::EnumStart { .. }
            | Ask::EnumNext { .. }
            | Ask::KeySecret { .. }
            | Ask::KeyCopy { .. }
            | Ask::OpSetKey { .. }
    )
}

/// Whether the entry waits with an ask that may need the store.
fn waits_for_store(running: &Option<ActiveEntry>) -> bool
    ensures { result ≡ of_running (λ r ask. may_need_store ask) running.now }
{
    match running {
        Some(
            ActiveEntry {
                waits: Waits::Ask(ask),
                ..
            },
        ) => may_need_store(ask),
        _ => false,
    }
}

impl<A: Application> AppSide<A> {
    /// Whether an ask waits in the instance that may need the store.
    pub fn needs_store(&self, instance: u8) -> bool
        ensures machine { (m : Machine A) → Represents self.now m
            → result ≡ needs_store m instance }
        ensures own { result ≡ wants_store self.now instance }
    {
        match place_of(self.instances.as_slice(), instance) {
            None => false,
            Some(place) => waits_for_store(&self.instances[place].running),
        }
    }
}
