//! A log that has each event, each kind of reply, and calls of several clients, line by line.

use crate::adding::add;
use alone::{AppLog, Call, LogEvent, Outputs, Replies, Reply, Shown};
use app_api::{Login, Param, Params};
use report::log_lines;
use std::alloc::Global;
use std::process::Abort;
use std::test::Fail;
use tee_base::{Bytes, Code, NoMemory, Origin};

/// An entry of a log of the application `keep`, and the lines that are written of it.
#[derive(Drop)]
struct Row {
    client: u8,
    event: LogEvent,
    replies: Replies,
    lines: &'static [u8],
}

fn quiet(client: u8, event: LogEvent, lines: &'static [u8]) -> Row {
    Row {
        client,
        event,
        replies: Replies::none(),
        lines,
    }
}

fn plain(op: u64, code: Code, origin: Origin) -> Reply {
    Reply {
        op,
        code,
        origin,
        outputs: Outputs::nothing(),
    }
}

fn answered(client: u8, event: LogEvent, reply: Reply, lines: &'static [u8]) -> Row {
    Row {
        client,
        event,
        replies: Replies::one(reply),
        lines,
    }
}

fn open(label: u32, login: Login) -> LogEvent {
    LogEvent::Call(Call::Open {
        label,
        login,
        params: Params::nothing(),
    })
}

/// An invoke with a value behind a parameter that is left out, and memory of two kinds.
fn invoke(alloc: Global) -> Result<LogEvent, NoMemory> {
    Ok(LogEvent::Call(Call::Invoke {
        label: 1,
        command: 40,
        params: Params {
            p0: Param::Nothing,
            p1: Param::ValueInOut(5, 4_294_967_295),
            p2: Param::MemIn(Bytes::from_slice(alloc, &[0x0a, 0xff])?),
            p3: Param::MemOut(8),
        },
    }))
}

/// An invoke with a whole block and a part of it.
fn referring() -> LogEvent {
    LogEvent::Call(Call::Invoke {
        label: 1,
        command: 40,
        params: Params {
            p0: Param::Whole(1),
            p1: Param::Nothing,
            p2: Param::Part {
                block: 1,
                way: 3,
                at: 2,
                size: 2,
            },
            p3: Param::Nothing,
        },
    })
}

/// What an application returned of such an invoke.
fn returned(alloc: Global) -> Result<Reply, NoMemory> {
    Ok(Reply {
        op: 2,
        code: Code::SUCCESS,
        origin: Origin::App,
        outputs: Outputs {
            p0: Shown::Nothing,
            p1: Shown::Value(6, 0),
            p2: Shown::Nothing,
            p3: Shown::Mem {
                size: 2,
                bytes: Bytes::from_slice(alloc, b"ok")?,
            },
        },
    })
}

/// A client opens a session, another invokes, and each makes a turn.
fn calls(alloc: Global) -> Result<Vec<Row>, NoMemory> {
    let mut rows = Vec::new(alloc);
    rows.push(quiet(
        0,
        open(1, Login::User(1_000)),
        b"keep log 1 c0 call 1 open 1 user:1000\n",
    ))?;
    rows.push(quiet(
        7,
        invoke(alloc)?,
        b"keep log 2 c7 call 2 invoke 1 40 - vio:5:4294967295 mi:0aff mo:8\n",
    ))?;
    rows.push(quiet(0, LogEvent::Turn(1), b"keep log 3 c0 turn 1\n"))?;
    rows.push(answered(
        7,
        LogEvent::Turn(1),
        returned(alloc)?,
        b"keep log 4 c7 turn 1\nkeep 2 00000000 4 p1=6,0 p3=2:6f6b\n",
    ))?;
    Ok(rows)
}

/// A call that is refused takes a number too, and a cancellation takes none.
fn refusals(alloc: Global) -> Result<Vec<Row>, NoMemory> {
    let mut rows = Vec::new(alloc);
    rows.push(answered(
        3,
        LogEvent::Call(Call::Close { label: 9 }),
        plain(3, Code::BAD_STATE, Origin::Api),
        b"keep log 5 c3 call 3 close 9\nkeep 3 ffff0007 1\n",
    ))?;
    rows.push(quiet(3, LogEvent::Cancel(17), b"keep log 6 c3 cancel 17\n"))?;
    rows.push(answered(
        3,
        LogEvent::Cancel(1),
        plain(1, Code::CANCEL, Origin::Tee),
        b"keep log 7 c3 cancel 1\nkeep 1 ffff0002 3\n",
    ))?;
    rows.push(quiet(5, open(0, Login::Public), b"keep log 8 c5 call 4 open 0\n"))?;
    Ok(rows)
}

fn made(op: u64) -> Reply {
    plain(op, Code::SUCCESS, Origin::Api)
}

/// What a client is shown of a block of four bytes.
fn shown(alloc: Global) -> Result<Reply, NoMemory> {
    let mut reply = made(8);
    reply.outputs.p0 = Shown::Mem {
        size: 4,
        bytes: Bytes::from_slice(alloc, b"\0\0AB")?,
    };
    Ok(reply)
}

/// The calls about shared memory: they have their words, and an invoke has those of references.
fn memory(alloc: Global) -> Result<Vec<Row>, NoMemory> {
    let bytes = Bytes::from_slice(alloc, b"AB")?;
    let mut rows = Vec::new(alloc);
    rows.push(answered(
        2,
        LogEvent::Call(Call::Share {
            block: 1,
            flags: 3,
            size: 4,
        }),
        made(6),
        b"keep log 14 c2 call 6 share 1 3 4\nkeep 6 00000000 1\n",
    ))?;
    rows.push(answered(
        2,
        LogEvent::Call(Call::Fill {
            block: 1,
            at: 2,
            bytes,
        }),
        made(7),
        b"keep log 15 c2 call 7 fill 1 2 4142\nkeep 7 00000000 1\n",
    ))?;
    rows.push(answered(
        2,
        LogEvent::Call(Call::Show { block: 1 }),
        shown(alloc)?,
        b"keep log 16 c2 call 8 show 1\nkeep 8 00000000 1 p0=4:00004142\n",
    ))?;
    rows.push(quiet(
        2,
        referring(),
        b"keep log 17 c2 call 9 invoke 1 40 sw:1 - sio:1:2:2\n",
    ))?;
    rows.push(answered(
        2,
        LogEvent::Call(Call::Unshare { block: 7 }),
        plain(10, Code::ITEM_NOT_FOUND, Origin::Api),
        b"keep log 18 c2 call 10 unshare 7\nkeep 10 ffff0008 1\n",
    ))?;
    Ok(rows)
}

/// What may befall a turn, and the storage.
fn losses(alloc: Global) -> Result<Vec<Row>, NoMemory> {
    let mut both = Replies::one(plain(4, Code::OUT_OF_MEMORY, Origin::Tee));
    both.push(plain(5, Code::OUT_OF_MEMORY, Origin::Tee));
    let mut rows = Vec::new(alloc);
    rows.push(quiet(5, LogEvent::Corrupted(2), b"keep log 9 c5 corrupt 2\n"))?;
    rows.push(quiet(5, LogEvent::TurnLost(2), b"keep log 10 c5 lost-turn 2\n"))?;
    rows.push(quiet(1, LogEvent::Lost, b"keep log 11 c1 lost\n"))?;
    rows.push(quiet(1, open(1, Login::Public), b"keep log 12 c1 call 5 open 1\n"))?;
    rows.push(Row {
        client: 5,
        event: LogEvent::Starve(4),
        replies: both,
        lines: b"keep log 13 c5 starve 4\nkeep 4 ffff000c 3\nkeep 5 ffff000c 3\n",
    })?;
    Ok(rows)
}

/// Adds the rows to the log, and asserts behind each that the text of the log is theirs so far.
fn go_on(
    rt: &impl Abort,
    alloc: Global,
    log: &mut AppLog,
    written: &mut Vec<u8>,
    rows: Vec<Row>,
) -> Result<(), Fail> {
    for row in rows {
        add(log, row.client, row.event, row.replies)?;
        written.extend_from_slice(row.lines)?;
        let lines = log_lines(alloc, b"keep", log)?;
        assert!(rt; lines.as_slice() == written.as_slice());
    }
    Ok(())
}

#[test]
fn each_event_has_its_line(rt: HostRuntime) -> Result<(), Fail> {
    let alloc = rt.alloc();
    let mut log = AppLog::new(alloc);
    let mut written = Vec::new(alloc);
    assert!(rt; log_lines(alloc, b"keep", &log)?.len() == 0);
    go_on(&rt, alloc, &mut log, &mut written, calls(alloc)?)?;
    go_on(&rt, alloc, &mut log, &mut written, refusals(alloc)?)?;
    go_on(&rt, alloc, &mut log, &mut written, losses(alloc)?)?;
    go_on(&rt, alloc, &mut log, &mut written, memory(alloc)?)?;
    Ok(())
}
