//! Rows of asks with what comes of them, and how they are run.

use crate::content::zeros;
use app_api::{Answer, Ask};
use object_asks::{Held, Outcome, Served, TurnKind, serve};
use std::alloc::Global;
use std::process::Abort;
use store_api::{AppStore, MapStore};
use tee_base::{Bytes, Code, NoMemory, keys};

/// An ask in words that a table can hold.
#[derive(Clone, Copy)]
pub enum Do {
    /// The storage, the flags and the identifier.
    Open(u32, u32, &'static [u8]),
    /// The storage, the flags, the identifier, the object that it is made of, and the content.
    Create(u32, u32, &'static [u8], u32, &'static [u8]),
    /// An object with the content of so many zeros.
    CreateZeros(&'static [u8], u32),
    Close(u32),
    Delete(u32),
    Rename(u32, &'static [u8]),
    Info(u32),
    Read(u32, u32),
    Write(u32, &'static [u8]),
    WriteZeros(u32, u32),
    Truncate(u32, u32),
    Seek(u32, i64, u32),
    ListNew,
    ListFree(u32),
    ListReset(u32),
    ListStart(u32, u32),
    ListNext(u32),
    KeyNew(u32, u32),
    KeyPopulate(u32, &'static [u8]),
    KeyReset(u32),
    KeySecret(u32, u32),
    /// To this one, from that one.
    KeyCopy(u32, u32),
    KeyRestrict(u32, u32),
    /// An ask of another family.
    Other,
}

/// What comes of it.
#[derive(Clone, Copy)]
pub enum Told {
    Done,
    Number(u32),
    Bytes(&'static [u8]),
    Short(u32),
    /// Kind, bits, greatest bits, usage, length, position and flags.
    Object([u32; 7]),
    /// Identifier, kind, usage and length.
    Found(&'static [u8], [u32; 3]),
    Refused(Code),
    Panicked,
}

/// The instance, its ask, how the turn went, and what came of it.
pub type Row = (u8, Do, TurnKind, Told);

pub const PLAIN: TurnKind = TurnKind::Plain;

/// The store fails, and no change is in doubt.
pub const GONE: TurnKind = TurnKind::Lost { change: false };

/// The store fails at an ask that is to change it.
pub const DOUBT: TurnKind = TurnKind::Lost { change: true };

pub const DONE: Told = Told::Done;

pub const PANICKED: Told = Told::Panicked;

pub const NO_BYTES: Told = Told::Bytes(b"");

pub const BAD: Told = Told::Refused(Code::BAD_PARAMETERS);

pub const BUSY: Told = Told::Refused(Code::BUSY);

pub const CONFLICT: Told = Told::Refused(Code::ACCESS_CONFLICT);

pub const LOST: Told = Told::Refused(Code::STORAGE_NOT_AVAILABLE);

pub const NO_SPACE: Told = Told::Refused(Code::STORAGE_NO_SPACE);

pub const NOT_FOUND: Told = Told::Refused(Code::ITEM_NOT_FOUND);

pub const OVERFLOW: Told = Told::Refused(Code::OVERFLOW);

pub const UNSUPPORTED: Told = Told::Refused(Code::NOT_SUPPORTED);

/// Reads, writes and lets others do so.
pub const ALL: u32 = 0x33;

/// Reads, writes and renames, and lets no others.
pub const META: u32 = 0x7;

pub const AES: u32 = keys::KIND_AES;

pub const DATA: u32 = keys::KIND_DATA;

/// The usage of a new object.
pub const EVERY: u32 = keys::USAGE_NEW;

/// An object that other rows are about.
pub const MADE: Row = (
    1,
    Do::Create(1, META, b"a", 0, b"1234"),
    PLAIN,
    Told::Number(1),
);

/// An ask that brings no bytes.
fn plain_ask(what: Do) -> Ask {
    match what {
        Do::Close(object) => Ask::ObjClose { object },
        Do::Delete(object) => Ask::ObjDelete { object },
        Do::Info(object) => Ask::ObjInfo { object },
        Do::Read(object, count) => Ask::ObjRead { object, count },
        Do::Truncate(object, length) => Ask::ObjTruncate { object, length },
        Do::Seek(object, offset, whence) => Ask::ObjSeek {
            object,
            offset,
            whence,
        },
        Do::ListNew => Ask::EnumNew,
        Do::ListFree(list) => Ask::EnumFree { list },
        Do::ListReset(list) => Ask::EnumReset { list },
        Do::ListStart(list, storage) => Ask::EnumStart { list, storage },
        Do::ListNext(list) => Ask::EnumNext { list },
        Do::KeyNew(kind, max_bits) => Ask::KeyNew { kind, max_bits },
        Do::KeyReset(object) => Ask::KeyReset { object },
        Do::KeySecret(object, room) => Ask::KeySecret { object, room },
        Do::KeyCopy(to, from) => Ask::KeyCopy { to, from },
        Do::KeyRestrict(object, usage) => Ask::KeyRestrict { object, usage },
        _ => Ask::CancelFlag,
    }
}

/// The bytes that the ask brings: the content where it has one beside an identifier.
fn bytes_of(alloc: Global, what: Do) -> Result<Bytes, NoMemory> {
    match what {
        Do::Open(_, _, bytes)
        | Do::Create(_, _, _, _, bytes)
        | Do::Rename(_, bytes)
        | Do::Write(_, bytes)
        | Do::KeyPopulate(_, bytes) => Bytes::from_slice(alloc, bytes),
        Do::CreateZeros(_, count) | Do::WriteZeros(_, count) => zeros(alloc, count),
        _ => Ok(Bytes::empty(alloc)),
    }
}

/// An ask that makes no object, with these bytes if it brings some.
fn with_bytes(what: Do, bytes: Bytes) -> Ask {
    match what {
        Do::Open(storage, flags, _) => Ask::ObjOpen {
            storage,
            id: bytes,
            flags,
        },
        Do::Rename(object, _) => Ask::ObjRename { object, id: bytes },
        Do::Write(object, _) | Do::WriteZeros(object, _) => Ask::ObjWrite { object, bytes },
        Do::KeyPopulate(object, _) => Ask::KeyPopulate {
            object,
            secret: bytes,
        },
        _ => {
            drop(bytes);
            plain_ask(what)
        }
    }
}

fn create(
    alloc: Global,
    storage: u32,
    flags: u32,
    id: &[u8],
    attr: u32,
    content: Bytes,
) -> Result<Ask, NoMemory> {
    match Bytes::from_slice(alloc, id) {
        Ok(id) => Ok(Ask::ObjCreate {
            storage,
            id,
            flags,
            attr,
            content,
        }),
        Err(error) => {
            drop(content);
            Err(error)
        }
    }
}

fn ask(alloc: Global, what: Do) -> Result<Ask, NoMemory> {
    let bytes = bytes_of(alloc, what)?;
    match what {
        Do::Create(storage, flags, id, attr, _) => create(alloc, storage, flags, id, attr, bytes),
        Do::CreateZeros(id, _) => create(alloc, 1, META, id, 0, bytes),
        _ => Ok(with_bytes(what, bytes)),
    }
}

fn is_number(number: u32, wanted: &Told) -> bool {
    matches!(wanted, Told::Number(wanted) if *wanted == number)
}

fn is_content(bytes: &[u8], wanted: &Told) -> bool {
    matches!(wanted, Told::Bytes(wanted) if *wanted == bytes)
}

fn is_short(needed: u32, wanted: &Told) -> bool {
    matches!(wanted, Told::Short(wanted) if *wanted == needed)
}

fn is_object(facts: [u32; 7], wanted: &Told) -> bool {
    matches!(wanted, Told::Object(wanted) if *wanted == facts)
}

fn is_found(id: &[u8], facts: [u32; 3], wanted: &Told) -> bool {
    matches!(wanted, Told::Found(wanted, rest) if *wanted == id && *rest == facts)
}

fn is_refused(code: Code, wanted: &Told) -> bool {
    matches!(wanted, Told::Refused(wanted) if *wanted == code)
}

/// Whether the answer is the one that is wanted.
fn answers(answer: &Answer, wanted: &Told) -> bool {
    match answer {
        Answer::Done => matches!(wanted, Told::Done),
        Answer::Number(number) => is_number(*number, wanted),
        Answer::Content(bytes) => is_content(bytes.as_slice(), wanted),
        Answer::Short(needed) => is_short(*needed, wanted),
        Answer::Object {
            kind,
            bits,
            max_bits,
            usage,
            length,
            position,
            flags,
        } => {
            let facts = [*kind, *bits, *max_bits, *usage, *length, *position, *flags];
            is_object(facts, wanted)
        }
        Answer::Found {
            id,
            kind,
            usage,
            length,
        } => is_found(id.as_slice(), [*kind, *usage, *length], wanted),
        Answer::Refused(code) => is_refused(*code, wanted),
        _ => false,
    }
}

/// Whether what came of an ask is what is wanted.
fn comes(served: &Served, kind: TurnKind, wanted: &Told) -> bool {
    served.kind == kind
        && match &served.outcome {
            Outcome::Answered(answer) => answers(answer, wanted),
            Outcome::Panicked => matches!(wanted, Told::Panicked),
            Outcome::Returned(_) => false,
        }
}

/// Makes the ask of the row, and says whether what came of it is what the row wants.
fn holds<T: AppStore>(
    alloc: Global,
    held: &mut Held,
    store: &mut T,
    row: &Row,
) -> Result<bool, NoMemory> {
    let (instance, what, kind, wanted) = row;
    let ask = ask(alloc, *what)?;
    let served = serve(alloc, held, store, *instance, ask)?;
    let holds = comes(&served, *kind, wanted);
    drop(served);
    Ok(holds)
}

/// The row at this place of its table holds.
pub fn assert_row(rt: &impl Abort, holds: bool, place: usize) {
    assert!(rt; holds, "row {place}");
}

/// Makes the ask of each row, and compares what came of it.
pub fn run<T: AppStore>(
    rt: &impl Abort,
    alloc: Global,
    held: &mut Held,
    store: &mut T,
    rows: &[Row],
) -> Result<(), NoMemory> {
    for (place, row) in rows.iter().enumerate() {
        let holds = holds(alloc, held, store, row)?;
        assert_row(rt, holds, place);
    }
    Ok(())
}

/// The rows over this store, of which nothing is open.
fn run_over<T: AppStore>(
    rt: &impl Abort,
    alloc: Global,
    store: &mut T,
    rows: &[Row],
) -> Result<(), NoMemory> {
    let mut held = Held::new(alloc);
    let ran = run(rt, alloc, &mut held, store, rows);
    drop(held);
    ran
}

/// The rows over an empty store of which these calls fail.
pub fn run_table(
    rt: &impl Abort,
    alloc: Global,
    failing: &[u64],
    rows: &[Row],
) -> Result<(), NoMemory> {
    let mut store = MapStore::new(alloc, failing)?;
    let ran = run_over(rt, alloc, &mut store, rows);
    drop(store);
    ran
}

/// The rows of each table over an empty store that serves.
pub fn run_tables(rt: &impl Abort, alloc: Global, tables: &[&[Row]]) -> Result<(), NoMemory> {
    for rows in tables {
        run_table(rt, alloc, &[], rows)?;
    }
    Ok(())
}
