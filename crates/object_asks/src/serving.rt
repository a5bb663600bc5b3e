//! Asks, each to the function that serves it.

ghost use Rattle.std.specs.Prelude.{◌≡◌, false};
ghost use Rattle.object_asks.specs.Asks.{changes_store, hands_on, object_resolution};
ghost use Rattle.object_asks.specs.Serving.{ServesAsk, objects_in};

use crate::held::Held;
use crate::outcome::{Served, panicked};
use crate::{enumerating, keys, names, opening, stream};
use app_api::Ask;
use std::alloc::Global;
use store_api::AppStore;
use tee_base::NoMemory;

/// An ask of which no bytes are handed on.
#[tactic(auto, using(crate::proofs::ServingLemmas::serves_held), unfolding(crate::specs::Asks::object_resolution))]
fn serve_lent<T: AppStore>(
    alloc: Global,
    held: &mut Held,
    store: &mut T,
    instance: u8,
    ask: &Ask,
) -> Result<Served, NoMemory>
    requires { hands_on ask.now ≡ false }
    ensures { let before = objects_in held.old (T.keeper.contents store.old)
        in ServesAsk T.keeper result (object_resolution before instance ask.now)
        (changes_store ask.now) held.old held.new store.old store.new }
{
    match *ask {
        Ask::ObjOpen {
            storage,
            ref id,
            flags,
        } => opening::open(held, store, instance, storage, id.as_slice(), flags),
        Ask::ObjClose { object } => Ok(names::close(held, instance, object)),
        Ask::ObjDelete { object } => names::delete(alloc, held, store, instance, object),
        Ask::ObjInfo { object } => names::info(alloc, held, store, instance, object),
        Ask::ObjRead { object, count } => {
            stream::read(alloc, held, store, instance, object, count)
        }
        Ask::ObjTruncate { object, length } => {
            stream::truncate(alloc, held, store, instance, object, length)
        }
        Ask::ObjSeek {
            object,
            offset,
            whence,
        } => stream::seek(alloc, held, store, instance, object, offset, whence),
        Ask::EnumNew => Ok(Served::plain(enumerating::create(held, instance)?)),
        Ask::EnumFree { list } => Ok(Served::plain(enumerating::free(held, instance, list))),
        Ask::EnumReset { list } => Ok(Served::plain(enumerating::reset(held, instance, list))),
        Ask::EnumStart { list, storage } => {
            enumerating::start(held, store, instance, list, storage)
        }
        Ask::EnumNext { list } => enumerating::next(alloc, held, store, instance, list),
        Ask::KeyNew { kind, max_bits } => {
            Ok(Served::plain(keys::create(held, instance, kind, max_bits)?))
        }
        Ask::KeyPopulate { object, ref secret } => {
            Ok(Served::plain(keys::populate(held, instance, object, secret.as_slice())))
        }
        Ask::KeyReset { object } => Ok(Served::plain(keys::reset(held, instance, object))),
        Ask::KeySecret { object, room } => {
            keys::secret(alloc, held, store, instance, object, room)
        }
        Ask::KeyCopy { to, from } => keys::copy(alloc, held, store, instance, to, from),
        Ask::KeyRestrict { object, usage } => Ok(Served::plain(keys::restrict(
            held, instance, object, usage,
        ))),
        _ => Ok(panicked()),
    }
}

/// An ask about objects, enumerators or keys. `KeyGenerate` rests on random bytes, and `random_wanted` and `generate` serve it;
/// an ask of another family doesn't come here. Both end the entry as a panic does.
///
/// # Errors
///
/// NoMemory changes nothing.
pub fn serve<T: AppStore>(
    alloc: Global,
    held: &mut Held,
    store: &mut T,
    instance: u8,
    ask: Ask,
) -> Result<Served, NoMemory>
    ensures { let before = objects_in held.old (T.keeper.contents store.old)
        in ServesAsk T.keeper result (object_resolution before instance ask)
        (changes_store ask) held.old held.new store.old store.new }
{
    match ask {
        Ask::ObjCreate {
            storage,
            id,
            flags,
            attr,
            content,
        } => opening::create(
            alloc, held, store, instance, storage, id, flags, attr, content,
        ),
        Ask::ObjRename { object, id } => names::rename(alloc, held, store, instance, object, id),
        Ask::ObjWrite { object, bytes } => {
            stream::write(alloc, held, store, instance, object, bytes)
        }
        other => {
            let served = serve_lent(alloc, held, store, instance, &other);
            drop(other);
            served
        }
    }
}
