//! Calls on an operation in words that a table can hold, and how they are made.

use crypto_ops::{OpAnswer, OpSealed, Operation};
use std::alloc::Global;
use std::process::Abort;
use tee_base::Bytes;

/// A call.
#[derive(Clone, Copy)]
pub enum Do<'a> {
    Info,
    MayChangeKey,
    Reset,
    /// The kind, the usage and the secret.
    SetKey(u32, u32, &'a [u8]),
    ClearKey,
    CipherInit(&'a [u8]),
    CipherUpdate(&'a [u8], u32),
    CipherFinal(&'a [u8], u32),
    MacInit,
    MacUpdate(&'a [u8]),
    MacFinal(&'a [u8], u32),
    Compare(&'a [u8], &'a [u8]),
    DigestUpdate(&'a [u8]),
    DigestFinal(&'a [u8], u32),
    AeInit(&'a [u8], u32),
    AeAad(&'a [u8]),
    AeUpdate(&'a [u8], u32),
    AeSeal(&'a [u8], u32, u32),
    AeOpen(&'a [u8], u32, &'a [u8]),
}

/// What comes of it.
#[derive(Clone, Copy, PartialEq)]
pub enum Told<'a> {
    Done,
    Bytes(&'a [u8]),
    /// The content and the tag.
    Sealed(&'a [u8], &'a [u8]),
    /// The content needs room for so many bytes.
    Short(u32),
    Misuse,
    MacInvalid,
    /// Another refusal.
    Other,
    /// The size of its key, the greatest size, and whether it is active.
    About(u32, u32, bool),
    May(bool),
}

pub type Row<'a> = (Do<'a>, Told<'a>);

pub const NO_BYTES: Told<'static> = Told::Bytes(&[]);

/// Looks at it.
fn seen(operation: &Operation, what: Do<'_>) -> Told<'static> {
    if matches!(what, Do::MayChangeKey) {
        return Told::May(operation.may_change_key());
    }
    let about = operation.info();
    Told::About(about.key_bits, about.max_bits, about.active)
}

/// A refusal.
fn refused(answer: &OpAnswer) -> Told<'static> {
    match answer {
        OpAnswer::Short(needed) => Told::Short(*needed),
        OpAnswer::Misuse => Told::Misuse,
        OpAnswer::MacInvalid => Told::MacInvalid,
        _ => Told::Other,
    }
}

/// What came of a call that gives no content.
fn done(answer: &Result<(), OpAnswer>) -> Told<'static> {
    match answer {
        Ok(_) => Told::Done,
        Err(answer) => refused(answer),
    }
}

/// What came of a call that gives one.
fn content(answer: &Result<Bytes, OpAnswer>) -> Told<'_> {
    match answer {
        Ok(bytes) => Told::Bytes(bytes.as_slice()),
        Err(answer) => refused(answer),
    }
}

/// What came of the call that gives a content and a tag.
fn sealed(answer: &Result<OpSealed, OpAnswer>) -> Told<'_> {
    match answer {
        Ok(sealed) => Told::Sealed(sealed.content.as_slice(), sealed.tag.as_slice()),
        Err(answer) => refused(answer),
    }
}

/// Makes that call, and says whether what comes of it is what is wanted.
fn seals(alloc: Global, operation: &mut Operation, what: Do<'_>, wanted: Told<'_>) -> bool {
    let Do::AeSeal(bytes, room, tag_room) = what else {
        return false;
    };
    let answer = operation.ae_seal(alloc, bytes, room, tag_room);
    sealed(&answer) == wanted
}

/// Makes a call that gives no content.
fn changed(operation: &mut Operation, what: Do<'_>) -> Told<'static> {
    let answer = match what {
        Do::Reset => operation.reset(),
        Do::SetKey(kind, usage, secret) => operation.set_key(kind, usage, secret),
        Do::ClearKey => operation.clear_key(),
        Do::CipherInit(iv) => operation.cipher_init(iv),
        Do::MacInit => operation.mac_init(),
        Do::MacUpdate(bytes) => operation.mac_update(bytes),
        Do::Compare(bytes, mac) => operation.mac_compare(bytes, mac),
        Do::DigestUpdate(bytes) => operation.digest_update(bytes),
        Do::AeInit(nonce, tag_bits) => operation.ae_init(nonce, tag_bits),
        Do::AeAad(bytes) => operation.ae_aad(bytes),
        _ => return seen(operation, what),
    };
    done(&answer)
}

/// Makes the call, and says whether what comes of it is what is wanted.
fn comes(alloc: Global, operation: &mut Operation, what: Do<'_>, wanted: Told<'_>) -> bool {
    let answer = match what {
        Do::CipherUpdate(bytes, room) => operation.cipher_update(alloc, bytes, room),
        Do::CipherFinal(bytes, room) => operation.cipher_final(alloc, bytes, room),
        Do::MacFinal(bytes, room) => operation.mac_final(alloc, bytes, room),
        Do::DigestFinal(bytes, room) => operation.digest_final(alloc, bytes, room),
        Do::AeUpdate(bytes, room) => operation.ae_update(alloc, bytes, room),
        Do::AeOpen(bytes, room, tag) => operation.ae_open(alloc, bytes, room, tag),
        Do::AeSeal(..) => return seals(alloc, operation, what, wanted),
        _ => return changed(operation, what) == wanted,
    };
    content(&answer) == wanted
}

/// Makes the calls of the rows in order, and compares what comes of each.
pub fn check(rt: &impl Abort, alloc: Global, operation: &mut Operation, rows: &[Row<'_>]) {
    for (number, (what, wanted)) in rows.iter().enumerate() {
        let holds = comes(alloc, operation, *what, *wanted);
        assert!(rt; holds, "row {number}");
    }
}

/// What a new operation is of: the algorithm, the mode and the greatest size.
pub type Kind = (u32, u32, u32);

/// A new operation.
pub fn new(rt: &impl Abort, kind: Kind) -> Operation {
    let (alg, mode, max_bits) = kind;
    Operation::new(alg, mode, max_bits).expect(rt, "an operation")
}

/// Makes the calls of the rows in order on a new operation.
pub fn run(rt: &impl Abort, alloc: Global, kind: Kind, rows: &[Row<'_>]) {
    let mut operation = new(rt, kind);
    check(rt, alloc, &mut operation, rows);
    drop(operation);
}

/// Has a new operation take over another, and makes calls on the copy.
fn check_copy(rt: &impl Abort, alloc: Global, from: &Operation, kind: Kind, rows: &[Row<'_>]) {
    let mut copy = new(rt, kind);
    copy.copy_from(from).expect(rt, "a copy");
    check(rt, alloc, &mut copy, rows);
    drop(copy);
}

/// Makes the calls that begin an operation and takes it over, and goes on with both.
pub fn go_apart(
    rt: &impl Abort,
    alloc: Global,
    operation: &mut Operation,
    begun: &[Row<'_>],
    kind: Kind,
    copied: &[Row<'_>],
    ended: &[Row<'_>],
) {
    check(rt, alloc, operation, begun);
    check_copy(rt, alloc, operation, kind, copied);
    check(rt, alloc, operation, ended);
}
