//! Asks and what comes of them, in words that a table can hold.

use crate::given::key_with;
use app_api::{Answer, Ask};
use operation_asks::{CryptoOutcome, Operations, Outcome};
use std::alloc::Global;
use std::process::Abort;
use tee_base::{Bytes, Code};
use transient_obj::{KeyLook, Secret};

/// An ask in words that a table can hold.
#[derive(Clone, Copy)]
pub enum Do<'a> {
    Random(u32),
    New(u32, u32, u32),
    Free(u32),
    Info(u32),
    Reset(u32),
    SetKey(u32, u32),
    /// The rest of an ask for a key: the object gives one of this kind, usage and secret.
    Key(u32, u32, u32, &'a [u8]),
    /// The same, where it gives none.
    NoKey(u32),
    /// The same, where its storage is gone.
    Gone(u32),
    Copy(u32, u32),
    Init(u32, &'a [u8]),
    Update(u32, &'a [u8], u32),
    Final(u32, &'a [u8], u32),
    MacInit(u32),
    MacUpdate(u32, &'a [u8]),
    MacFinal(u32, &'a [u8], u32),
    Compare(u32, &'a [u8], &'a [u8]),
    DigestUpdate(u32, &'a [u8]),
    DigestFinal(u32, &'a [u8], u32),
    AeInit(u32, &'a [u8], u32),
    AeAad(u32, &'a [u8]),
    AeUpdate(u32, &'a [u8], u32),
    AeSeal(u32, &'a [u8], u32, u32),
    AeOpen(u32, &'a [u8], u32, &'a [u8]),
    /// An ask of another family.
    Close(u32),
}

/// What comes of it.
#[derive(Clone, Copy, PartialEq)]
pub enum Told<'a> {
    Done,
    Number(u32),
    Bytes(&'a [u8]),
    /// The content and the tag.
    Sealed(&'a [u8], &'a [u8]),
    Short(u32),
    Refused(Code),
    /// The size of its key, and whether it is active.
    About(u32, u32, u32, u32, bool),
    /// It wants the key of an object.
    Wants(u32, u32),
    Panicked,
    Other,
}

/// The bytes in memory of their own.
fn owned(rt: &impl Abort, alloc: Global, bytes: &[u8]) -> Bytes {
    Bytes::from_slice(alloc, bytes).expect(rt, "bytes")
}

/// An ask with no bytes.
fn without_bytes(what: Do<'_>) -> Ask {
    match what {
        Do::Random(count) => Ask::Random { count },
        Do::New(alg, mode, max_bits) => Ask::OpNew {
            alg,
            mode,
            max_bits,
        },
        Do::Free(op) => Ask::OpFree { op },
        Do::Info(op) => Ask::OpInfo { op },
        Do::Reset(op) => Ask::OpReset { op },
        Do::SetKey(op, object) => Ask::OpSetKey { op, object },
        Do::Copy(to, from) => Ask::OpCopy { to, from },
        Do::MacInit(op) => Ask::MacInit { op },
        _ => Ask::ObjClose { object: 0 },
    }
}

/// An ask with bytes and room.
fn with_room(op: u32, what: Do<'_>, bytes: Bytes, room: u32) -> Ask {
    match what {
        Do::Update(..) => Ask::CipherUpdate { op, bytes, room },
        Do::Final(..) => Ask::CipherFinal { op, bytes, room },
        Do::MacFinal(..) => Ask::MacFinal { op, bytes, room },
        Do::AeUpdate(..) => Ask::AeUpdate { op, bytes, room },
        _ => Ask::DigestFinal { op, bytes, room },
    }
}

/// An ask of authenticated encryption but the one for more of the message.
fn ask_of_ae(rt: &impl Abort, alloc: Global, what: Do<'_>) -> Ask {
    match what {
        Do::AeInit(op, nonce, tag_bits) => Ask::AeInit {
            op,
            nonce: owned(rt, alloc, nonce),
            tag_bits,
        },
        Do::AeAad(op, bytes) => Ask::AeAad {
            op,
            bytes: owned(rt, alloc, bytes),
        },
        Do::AeSeal(op, bytes, room, tag_room) => Ask::AeSeal {
            op,
            bytes: owned(rt, alloc, bytes),
            room,
            tag_room,
        },
        Do::AeOpen(op, bytes, room, tag) => Ask::AeOpen {
            op,
            bytes: owned(rt, alloc, bytes),
            room,
            tag: owned(rt, alloc, tag),
        },
        _ => without_bytes(what),
    }
}

/// Any ask.
fn ask(rt: &impl Abort, alloc: Global, what: Do<'_>) -> Ask {
    match what {
        Do::Init(op, iv) => Ask::CipherInit {
            op,
            iv: owned(rt, alloc, iv),
        },
        Do::MacUpdate(op, bytes) => Ask::MacUpdate {
            op,
            bytes: owned(rt, alloc, bytes),
        },
        Do::DigestUpdate(op, bytes) => Ask::DigestUpdate {
            op,
            bytes: owned(rt, alloc, bytes),
        },
        Do::Compare(op, bytes, mac) => Ask::MacCompare {
            op,
            bytes: owned(rt, alloc, bytes),
            mac: owned(rt, alloc, mac),
        },
        Do::Update(op, bytes, room)
        | Do::Final(op, bytes, room)
        | Do::MacFinal(op, bytes, room)
        | Do::DigestFinal(op, bytes, room)
        | Do::AeUpdate(op, bytes, room) => with_room(op, what, owned(rt, alloc, bytes), room),
        _ => ask_of_ae(rt, alloc, what),
    }
}

/// An object gives this key.
fn key_of(rt: &impl Abort, kind: u32, usage: u32, secret: &[u8]) -> KeyLook {
    assert!(rt; secret.len() <= 128);
    key_with(kind, usage, Secret::from_slice(secret))
}

/// The rest of an ask for a key.
fn settled(crypto: &mut Operations, instance: u8, op: u32, given: KeyLook) -> CryptoOutcome {
    CryptoOutcome::Settled(crypto.set_key(instance, op, given))
}

/// What comes of an ask, or of the rest of one.
fn served(
    rt: &impl Abort,
    alloc: Global,
    crypto: &mut Operations,
    instance: u8,
    what: Do<'_>,
) -> CryptoOutcome {
    let (op, given) = match what {
        Do::Key(op, kind, usage, secret) => (op, key_of(rt, kind, usage, secret)),
        Do::NoKey(op) => (op, KeyLook::NoKey),
        Do::Gone(op) => (op, KeyLook::Refused(Code::STORAGE_NOT_AVAILABLE)),
        _ => {
            let asked = crypto.serve(alloc, instance, ask(rt, alloc, what));
            return asked.expect(rt, "an outcome");
        }
    };
    settled(crypto, instance, op, given)
}

/// The same in words that a table can hold.
fn shown(asked: &CryptoOutcome) -> Told<'_> {
    match asked {
        CryptoOutcome::Settled(Outcome::Answered(Answer::Done)) => Told::Done,
        CryptoOutcome::Settled(Outcome::Answered(Answer::Number(number))) => Told::Number(*number),
        CryptoOutcome::Settled(Outcome::Answered(Answer::Content(bytes))) => Told::Bytes(
            bytes.as_slice(),
        ),
        CryptoOutcome::Settled(Outcome::Answered(Answer::Sealed { content, tag })) => Told::Sealed(
            content.as_slice(),
            tag.as_slice(),
        ),
        CryptoOutcome::Settled(Outcome::Answered(Answer::Short(needed))) => Told::Short(*needed),
        CryptoOutcome::Settled(Outcome::Answered(Answer::Refused(code))) => Told::Refused(*code),
        CryptoOutcome::Settled(
            Outcome::Answered(
                Answer::About {
                    alg,
                    mode,
                    max_bits,
                    key_bits,
                    active,
                },
            ),
        ) => Told::About(*alg, *mode, *max_bits, *key_bits, *active),
        CryptoOutcome::Settled(Outcome::Panicked) => Told::Panicked,
        CryptoOutcome::WantsKey { op, object } => Told::Wants(*op, *object),
        _ => Told::Other,
    }
}

/// An instance, its ask, and what comes of it.
pub type Row<'a> = (u8, Do<'a>, Told<'a>);

/// Whether the ask of a row comes to what the row says.
fn is_met(rt: &impl Abort, alloc: Global, crypto: &mut Operations, row: &Row<'_>) -> bool {
    let (instance, what, wanted) = *row;
    let asked = served(rt, alloc, crypto, instance, what);
    let holds = shown(&asked) == wanted;
    drop(asked);
    holds
}

/// Checks it of each row, in order.
pub fn check_on(rt: &impl Abort, alloc: Global, crypto: &mut Operations, rows: &[Row<'_>]) {
    for (number, row) in rows.iter().enumerate() {
        let holds = is_met(rt, alloc, crypto, row);
        assert!(rt; holds, "row {number}");
    }
}

/// Checks it of each row, in order, over no operations.
pub fn check(rt: &impl Abort, alloc: Global, rows: &[Row<'_>]) {
    let mut crypto = Operations::new(alloc, [0; 32], 0, 0);
    check_on(rt, alloc, &mut crypto, rows);
    drop(crypto);
}
