//! Asks that close, delete, rename and tell of objects (TEE Internal Core API 1.3, sections 5.5 and 5.7).

ghost use Rattle.std.specs.Prelude.{◌≡◌, Bool, List, ℕ, false, true, not, IsTrue, option_map};
ghost use Rattle.store_api.specs.Keeping.{Applies, Contents};
ghost use Rattle.store_api.specs.Limits.{IsIdentifier};
ghost use Rattle.store_api.specs.Stores.{found, change};
ghost use Rattle.store_api.specs.declared.change.Change.TheVariants.{Delete as deletion, Rename as renaming};
ghost use Rattle.handle_table.specs.Handles.{handle_at, is_alone, is_open, is_there};
ghost use Rattle.object_asks.specs.Handles.{without_rename};
ghost use Rattle.tee_base.specs.declared.codes.TheConstants.Code.{ACCESS_CONFLICT};
ghost use Rattle.object_asks.specs.Held.{Held as HeldValue, handle_closed, may_rename};
ghost use Rattle.object_asks.specs.Asks.{Serves, came_of, close_resolution, delete_resolution, deleted_by, delete_on, with_held, info_resolution, key_info, refusal_with, rename_resolution, rename_outcome, renamed_by, told_of_object};
ghost use Rattle.object_asks.specs.Serving.{IsGiven, IsOutcome, ServesAsk, objects_in};

use crate::checks::{has_bit, is_long_identifier};
use crate::held::Held;
use crate::opening::conflict;
use crate::outcome::{Outcome, Served, answered, declined, done, panicked, told};
use crate::turn::TurnKind;
use app_api::Answer;
use handle_table::Handle;
use std::alloc::Global;
use store_api::{AppStore, Change, StoreAnswer};
use tee_base::{Bytes, Code, Flags, NoMemory};
use transient_obj::Transient;

pub fn close(held: &mut Held, instance: u8, object: u32) -> Served
    ensures kind { result.kind ≡ TurnKind.Plain }
    ensures outcome { (contents : Contents) (lost : Bool) → IsOutcome result.outcome
        (came_of Serves lost (close_resolution (objects_in held.old contents) instance object))
        (objects_in held.old contents) (objects_in held.new contents) }
{
    if object == 0 {
        return answered(Answer::Done);
    }
    if !held.is_there(instance, object) {
        return panicked();
    }
    held.close(instance, object);
    answered(Answer::Done)
}

/// Takes the object away. The handle goes too, also where the store refuses; want of memory alone leaves it.
fn delete_through<T: AppStore>(
    held: &mut Held,
    store: &mut T,
    instance: u8,
    object: u32,
    id: Bytes,
) -> Result<Outcome, StoreAnswer>
    requires id { IsIdentifier id }
    requires there { IsTrue (is_there (without_rename held.old.handles) instance object) }
    ensures { let before = objects_in held.old (T.keeper.contents store.old)
        in let kept = handle_closed held.old instance object
        in IsGiven T.keeper result
        (deleted_by (with_held before kept) (change before.store (deletion id)))
        true held.old kept held.new store.old store.new }
{
    let change = Change::Delete { id };
    let answer = store.apply(&change);
    drop(change);
    match answer {
        Ok(()) => {
            held.close(instance, object);
            Ok(done())
        }
        Err(StoreAnswer::NoMemory) => Err(StoreAnswer::NoMemory),
        Err(answer) => {
            held.close(instance, object);
            Err(answer)
        }
    }
}

#[tactic(auto, using(crate::proofs::ServingLemmas::serves_nothing, crate::proofs::ServingLemmas::serves_panic, crate::proofs::ServingLemmas::serves_answer))]
pub fn delete<T: AppStore>(
    alloc: Global,
    held: &mut Held,
    store: &mut T,
    instance: u8,
    object: u32,
) -> Result<Served, NoMemory>
    ensures { let before = objects_in held.old (T.keeper.contents store.old)
        in ServesAsk T.keeper result (delete_resolution before instance object)
        true held.old held.new store.old store.new }
{
    if object == 0 {
        return Ok(answered(Answer::Done));
    }
    let Some(Handle::Persistent { id, flags, .. }) = held.get(instance, object) else {
        return Ok(panicked());
    };
    if !has_bit(Flags::ACCESS_WRITE_META, *flags) {
        return Ok(panicked());
    }
    let id = id.copy(alloc)?;
    told(delete_through(held, store, instance, object, id), true)
}

/// Renames an object to an identifier that may be another's.
fn rename_object<T: AppStore>(
    held: &mut Held,
    store: &mut T,
    instance: u8,
    object: u32,
    id: Bytes,
    to: Bytes,
) -> Result<Outcome, StoreAnswer>
    requires id { IsIdentifier id }
    requires to { IsIdentifier to }
    requires meta { IsTrue (may_rename held.old instance object id) }
    ensures { let before = objects_in held.old (T.keeper.contents store.old)
        in IsGiven T.keeper result
        (rename_outcome before instance object id to)
        true held.old held.old held.new store.old store.new }
{
    if held.is_open(to.as_slice()) {
        return conflict(store, to.as_slice());
    }
    held.rename(store, instance, object, id, to)
}

#[tactic(auto, using(crate::proofs::ServingLemmas::serves_nothing, crate::proofs::ServingLemmas::serves_panic, crate::proofs::ServingLemmas::serves_answer))]
pub fn rename<T: AppStore>(
    alloc: Global,
    held: &mut Held,
    store: &mut T,
    instance: u8,
    object: u32,
    to: Bytes,
) -> Result<Served, NoMemory>
    ensures { let before = objects_in held.old (T.keeper.contents store.old)
        in ServesAsk T.keeper result
        (rename_resolution before instance object to
        (handle_at (without_rename held.old.handles) instance object))
        true held.old held.new store.old store.new }
{
    let Some(Handle::Persistent { id, flags, .. }) = held.get(instance, object) else {
        return Ok(panicked());
    };
    if is_long_identifier(to.as_slice()) || !has_bit(Flags::ACCESS_WRITE_META, *flags) {
        return Ok(panicked());
    }
    let id = id.copy(alloc)?;
    told(rename_object(held, store, instance, object, id, to), true)
}

/// What the store tells of the object, and the handle of itself.
fn info_found<T: AppStore>(
    held: &mut Held,
    store: &mut T,
    id: Bytes,
    flags: Flags,
    position: u32,
) -> Result<Outcome, StoreAnswer>
    requires { IsIdentifier id }
    ensures { let before = objects_in held.old (T.keeper.contents store.old)
        in IsGiven T.keeper result
        (told_of_object before flags position (found before.store id))
        false held.old held.old held.new store.old store.new }
{
    let facts = store.find(id.as_slice())?;
    let bits = 8 * u32::from(facts.secret);
    Ok(Outcome::Answered(Answer::Object {
        kind: facts.kind,
        bits,
        max_bits: bits,
        usage: facts.usage,
        length: facts.length,
        position,
        flags: flags.0,
    }))
}

/// What a key in memory is.
fn key_info(key: Option<&Transient>) -> Outcome
    ensures { (held : HeldValue) (contents : Contents) → IsOutcome result
        (key_info (objects_in held contents) (option_map (λ key. key.now) key.entry))
        (objects_in held contents) (objects_in held contents) }
{
    let Some(key) = key else {
        return Outcome::Panicked;
    };
    let bits = match key.secret() {
        Some(secret) => 8 * secret.len() as u32,
        None => 0,
    };
    Outcome::Answered(Answer::Object {
        kind: key.kind(),
        bits,
        max_bits: key.max_bits(),
        usage: key.usage(),
        length: 0,
        position: 0,
        flags: 0,
    })
}

#[tactic(auto, using(crate::proofs::ServingLemmas::serves_nothing, crate::proofs::ServingLemmas::serves_panic, crate::proofs::ServingLemmas::serves_answer))]
pub fn info<T: AppStore>(
    alloc: Global,
    held: &mut Held,
    store: &mut T,
    instance: u8,
    object: u32,
) -> Result<Served, NoMemory>
    ensures { let before = objects_in held.old (T.keeper.contents store.old)
        in ServesAsk T.keeper result
        (info_resolution before instance object
        (handle_at (without_rename held.old.handles) instance object))
        false held.old held.new store.old store.new }
{
    match held.get(instance, object) {
        None => Ok(panicked()),
        Some(Handle::Transient) => Ok(Served::plain(key_info(held.key(instance, object)))),
        Some(
            Handle::Persistent {
                id,
                flags,
                position,
            },
        ) => {
            let (flags, position) = (*flags, *position);
            let id = id.copy(alloc)?;
            told(info_found(held, store, id, flags, position), false)
        }
    }
}
