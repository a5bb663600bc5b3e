//! Asks that open or create persistent objects: one function for each, misuse first, then the refusals in their order, then
//! what the store gives (TEE Internal Core API 1.3, section 5.7).

ghost use Rattle.std.specs.Prelude.{◌≡◌, ◌≤◌, List, ℕ, false, true, length, IfOk};
ghost use Rattle.tee_base.specs.declared.limits.TheConstants.{MAX_ASK_BYTES};
ghost use Rattle.store_api.specs.Limits.{IsIdentifier};
ghost use Rattle.store_api.specs.Stores.{found, change};
ghost use Rattle.store_api.specs.Keeping.{Reads};
ghost use Rattle.handle_table.specs.Handles.{is_full, is_open};
ghost use Rattle.object_asks.specs.Handles.{without_rename};
ghost use Rattle.tee_base.specs.declared.codes.TheConstants.Code.{ACCESS_CONFLICT};
ghost use Rattle.object_asks.specs.Held.{Held as HeldValue};
ghost use Rattle.object_asks.specs.Sources.{HasSource, IsObjectKey, attr_source, is_no_key, key_given, stored_key};
ghost use Rattle.object_asks.specs.Asks.{create_outcome, created_by, created_with, create_by, create_resolution, kept_flags, open_resolution, opened_by, overwrites, put_of, refusal_with};
ghost use Rattle.object_asks.specs.Serving.{IsGiven, ServesAsk, objects_in};

use crate::checks::{
    PRIVATE, has_bit, has_unknown_bits, is_long_identifier, is_too_much, kept_flags,
};
use crate::held::Held;
use crate::outcome::{Outcome, Served, declined, panicked, refused, told};
use crate::source::KeySource;
use app_api::Answer;
use std::alloc::Global;
use store_api::{AppStore, Change, StoreAnswer};
use tee_base::{Bytes, Code, Flags, NoMemory, keys};
use transient_obj::{ObjectKey, Secret};

/// Opens an object that may be there.
fn open_found<T: AppStore>(
    held: &mut Held,
    store: &mut T,
    instance: u8,
    id: &[u8],
    flags: Flags,
) -> Result<Outcome, StoreAnswer>
    requires id { IsIdentifier id.now }
    requires room { is_full (without_rename held.old.handles) instance ≡ false }
    ensures { let before = objects_in held.old (T.keeper.contents store.old)
        in IsGiven T.keeper result
        (opened_by before instance id.now flags (found before.store id.now))
        false held.old held.old held.new store.old store.new }
{
    let _facts = store.find(id)?;
    if !held.may_open(id, flags) {
        return Ok(declined(Code::ACCESS_CONFLICT));
    }
    let number = held.add(instance, id, flags)?;
    Ok(Outcome::Answered(Answer::Number(number)))
}

#[tactic(auto, using(crate::proofs::ServingLemmas::serves_nothing, crate::proofs::ServingLemmas::serves_panic, crate::proofs::ServingLemmas::serves_answer))]
pub fn open<T: AppStore>(
    held: &mut Held,
    store: &mut T,
    instance: u8,
    storage: u32,
    id: &[u8],
    flags: u32,
) -> Result<Served, NoMemory>
    ensures { let before = objects_in held.old (T.keeper.contents store.old)
        in ServesAsk T.keeper result (open_resolution before instance storage id.now flags)
        false held.old held.new store.old store.new }
{
    if is_long_identifier(id) || has_unknown_bits(flags) {
        return Ok(panicked());
    }
    if storage != PRIVATE {
        return Ok(refused(Code::ITEM_NOT_FOUND));
    }
    if held.is_full(instance) {
        return Ok(refused(Code::BUSY));
    }
    told(
        open_found(held, store, instance, id, kept_flags(flags)),
        false,
    )
}

/// What the store has of an object: its kind and its usage by one read, its secret by another.
pub fn read_key<T: AppStore>(store: &mut T, id: &[u8]) -> Result<ObjectKey, StoreAnswer>
    requires { IsIdentifier id.now }
    ensures { Reads T.keeper (λ store. stored_key store id.now) IsObjectKey
        result store.old store.new }
{
    let facts = store.find(id)?;
    let secret = store.secret(id)?;
    Ok(ObjectKey {
        kind: facts.kind,
        usage: facts.usage,
        secret: Secret::from_slice(secret.as_slice()),
    })
}

/// A create over an object that is open, or a rename to one. The store is asked, since a lost one is answered first.
pub fn conflict<T: AppStore>(store: &mut T, id: &[u8]) -> Result<Outcome, StoreAnswer>
    requires { IsIdentifier id.now }
    ensures { (held : HeldValue) → IsGiven T.keeper result
        (refusal_with (objects_in held (T.keeper.contents store.old)) ACCESS_CONFLICT)
        true held held held store.old store.new }
{
    match store.find(id) {
        Ok(_) | Err(StoreAnswer::NotFound | StoreAnswer::Exists | StoreAnswer::NoSpace) => {
            Ok(declined(Code::ACCESS_CONFLICT))
        }
        Err(answer) => Err(answer),
    }
}

/// Makes an object on which no handle is open. Its handle is there before the store is changed, and goes again where the
/// store refuses.
#[tactic(auto, using(crate::proofs::HandleLemmas::closed_opens))]
fn create_closed<T: AppStore>(
    alloc: Global,
    held: &mut Held,
    store: &mut T,
    instance: u8,
    id: Bytes,
    flags: u32,
    content: Bytes,
    key: &ObjectKey,
) -> Result<Outcome, StoreAnswer>
    requires id { IsIdentifier id }
    requires content { length content ≤ MAX_ASK_BYTES }
    requires room { is_full (without_rename held.old.handles) instance ≡ false }
    requires closed { is_open (without_rename held.old.handles) id ≡ false }
    ensures { let before = objects_in held.old (T.keeper.contents store.old)
        in IsGiven T.keeper result
        (created_by before instance id (kept_flags flags)
        (change before.store (put_of id key.now content (overwrites flags))))
        true held.old held.old held.new store.old store.new }
{
    let secret = Bytes::from_slice(alloc, key.secret.as_slice())?;
    let number = held.add(instance, id.as_slice(), kept_flags(flags))?;
    let change = Change::Put {
        id,
        kind: key.kind,
        usage: key.usage,
        secret,
        content,
        overwrite: has_bit(Flags::OVERWRITE, Flags(flags)),
    };
    let answer = store.apply(&change);
    drop(change);
    match answer {
        Ok(()) => Ok(Outcome::Answered(Answer::Number(number))),
        Err(answer) => {
            held.close(instance, number);
            Err(answer)
        }
    }
}

fn create_object<T: AppStore>(
    alloc: Global,
    held: &mut Held,
    store: &mut T,
    instance: u8,
    id: Bytes,
    flags: u32,
    content: Bytes,
    key: &ObjectKey,
) -> Result<Outcome, StoreAnswer>
    requires id { IsIdentifier id }
    requires content { length content ≤ MAX_ASK_BYTES }
    requires room { is_full (without_rename held.old.handles) instance ≡ false }
    ensures { let before = objects_in held.old (T.keeper.contents store.old)
        in IsGiven T.keeper result
        (create_outcome before instance id flags content key.now)
        true held.old held.old held.new store.old store.new }
{
    if held.is_open(id.as_slice()) {
        return conflict(store, id.as_slice());
    }
    create_closed(alloc, held, store, instance, id, flags, content, key)
}

/// Makes an object with what another in the store gives.
fn create_from<T: AppStore>(
    alloc: Global,
    held: &mut Held,
    store: &mut T,
    instance: u8,
    id: Bytes,
    flags: u32,
    content: Bytes,
    attr: &[u8],
) -> Result<Outcome, StoreAnswer>
    requires id { IsIdentifier id }
    requires content { length content ≤ MAX_ASK_BYTES }
    requires room { is_full (without_rename held.old.handles) instance ≡ false }
    requires attr { IsIdentifier attr.now }
    ensures { let before = objects_in held.old (T.keeper.contents store.old)
        in IsGiven T.keeper result
        (created_with before instance id flags content (stored_key before.store attr.now))
        true held.old held.old held.new store.old store.new }
{
    let key = read_key(store, attr)?;
    create_object(alloc, held, store, instance, id, flags, content, &key)
}

/// Makes an object with what the source gives.
fn create_with<T: AppStore>(
    alloc: Global,
    held: &mut Held,
    store: &mut T,
    instance: u8,
    id: Bytes,
    flags: u32,
    content: Bytes,
    source: &KeySource,
) -> Result<Outcome, StoreAnswer>
    requires id { IsIdentifier id }
    requires content { length content ≤ MAX_ASK_BYTES }
    requires room { is_full (without_rename held.old.handles) instance ≡ false }
    requires source { HasSource source.now }
    requires key { is_no_key source.now ≡ false }
    ensures { let before = objects_in held.old (T.keeper.contents store.old)
        in IsGiven T.keeper result
        (created_with before instance id flags content (key_given before.store source.now))
        true held.old held.old held.new store.old store.new }
{
    match source {
        KeySource::NoKey => unreachable!(),
        KeySource::InMemory(key) => {
            create_object(alloc, held, store, instance, id, flags, content, key)
        }
        KeySource::InStore(attr) => create_from(
            alloc,
            held,
            store,
            instance,
            id,
            flags,
            content,
            attr.as_slice(),
        ),
    }
}

#[tactic(auto, using(crate::proofs::ServingLemmas::serves_nothing, crate::proofs::ServingLemmas::serves_panic, crate::proofs::ServingLemmas::serves_answer))]
fn create_by<T: AppStore>(
    alloc: Global,
    held: &mut Held,
    store: &mut T,
    instance: u8,
    storage: u32,
    id: Bytes,
    flags: u32,
    content: Bytes,
    source: &KeySource,
) -> Result<Served, NoMemory>
    requires { HasSource source.now }
    ensures { let before = objects_in held.old (T.keeper.contents store.old)
        in ServesAsk T.keeper result
        (create_by before instance storage id flags content source.now)
        true held.old held.new store.old store.new }
{
    if is_long_identifier(id.as_slice())
        || is_too_much(content.len())
        || has_unknown_bits(flags)
        || source.is_none()
    {
        return Ok(panicked());
    }
    if storage != PRIVATE {
        return Ok(refused(Code::ITEM_NOT_FOUND));
    }
    if held.is_full(instance) {
        return Ok(refused(Code::BUSY));
    }
    told(
        create_with(alloc, held, store, instance, id, flags, content, source),
        true,
    )
}

/// The attributes of a new object.
fn attr_source(held: &Held, alloc: Global, instance: u8, attr: u32) -> Result<KeySource, NoMemory>
    ensures source { IfOk result (λ source. source ≡ attr_source held.now instance attr) }
    ensures bounds { IfOk result (λ source. HasSource source) }
{
    if attr == 0 {
        return Ok(KeySource::InMemory(ObjectKey {
            kind: keys::KIND_DATA,
            usage: keys::USAGE_NEW,
            secret: Secret::from_slice(&[]),
        }));
    }
    held.source(alloc, instance, attr)
}

#[tactic(auto, using(crate::proofs::ServingLemmas::serves_nothing))]
pub fn create<T: AppStore>(
    alloc: Global,
    held: &mut Held,
    store: &mut T,
    instance: u8,
    storage: u32,
    id: Bytes,
    flags: u32,
    attr: u32,
    content: Bytes,
) -> Result<Served, NoMemory>
    ensures { let before = objects_in held.old (T.keeper.contents store.old)
        in ServesAsk T.keeper result
        (create_resolution before instance storage id flags attr content)
        true held.old held.new store.old store.new }
{
    let source = attr_source(held, alloc, instance, attr)?;
    create_by(
        alloc, held, store, instance, storage, id, flags, content, &source,
    )
}
