//! Two threads, one at each of two applications, and what their logs tell, computed again.

ghost use Rattle.std.specs.Prelude.{◌≡◌, ◌<◌, ◌≤◌, ◌^◌, ◌∷◌, false, IfOk, vec_len};
ghost use Rattle.std.specs.List.{insert};
ghost use Rattle.std.specs.Thread.{IsSend, IsSync};
ghost use Rattle.app_side.specs.Represents.{is_lost};
ghost use Rattle.shared_tee.specs.Ending.{ArePasses};
ghost use Rattle.shared_tee.specs.Passes.{IsPassOf, PassView};

use super::shared::{PASSES, SEED, begun, bytes, check_few, hosts};
use alone::{
    AppLog, Call, LogEntry, LogEvent, Outputs, Replies, Reply, Shown, TurnKind, copy_call,
};
use app_api::{Application, Host, Login, Param, Params};
use app_side::AppSide;
use board::Board;
use boards::MemBoard;
use epoch::BoardVolume;
use sample_apps::Store;
use shared_parts::{Posted, SharedAnswer};
use shared_tee::{Pass, SharedTeeOver};
use std::alloc::Global;
use std::process::Abort;
use std::thread::{Threads, join};
use store_api::{AppStore, MapStore, Volume};
use tee_base::{Code, limits};

/// How many calls a thread makes, five in each of its sessions.
const CALLS: usize = 200;

/// How many turns it makes after each call.
const TURNS: usize = 8;

/// Most tries of one turn.
const TRIES: u32 = 1_000_000_000;

/// Most turns that are made, far below the bound of the calls.
const MOST: u64 = 1 << 40;

/// The first client's passes of the first two applications, and the others. With two such passes at their places the list is whole.
fn two_of<V: Volume, A: Application>(
    tee: &SharedTeeOver<V, A>,
    passes: Vec<Pass<V, A>>,
) -> (Pass<V, A>, Pass<V, A>, Vec<Pass<V, A>>)
    requires all { ArePasses tee.now passes.items }
    requires there { 8 < vec_len passes }
    ensures first { IsPassOf tee.now result.0 }
    ensures second { IsPassOf tee.now result.1 }
    ensures whole { (a b : PassView V A) → IsPassOf tee.now a → IsPassOf tee.now b
        → a.app ≡ 0 → a.client ≡ 0 → b.app ≡ 1 → b.client ≡ 0
        → ArePasses tee.now (a ∷ insert result.2.items 7 b) }
{
    let mut rest = passes;
    let first = rest.remove(0);
    let second = rest.remove(7);
    (first, second, rest)
}

/// Puts a pass before the one at this place.
fn put<V: Volume, A: Application>(
    rt: &impl Abort,
    passes: &mut Vec<Pass<V, A>>,
    place: usize,
    pass: Pass<V, A>,
)
    ensures { passes.new.items ≡ insert passes.old.items place pass }
{
    assert!(rt; place <= passes.len());
    let put = passes.insert(place, pass).is_ok();
    assert!(rt; put);
}

/// The pass is the first client's of this application.
fn check_place<V: Volume, A: Application>(rt: &impl Abort, pass: &Pass<V, A>, app: u8)
    ensures app { pass.now.app ≡ app }
    ensures client { pass.now.client ≡ 0 }
{
    assert!(rt; pass.app() == app);
    assert!(rt; pass.client() == 0);
}

/// The whole list, with the two passes at their places.
fn put_back<V: Volume, A: Application>(
    rt: &impl Abort,
    tee: &SharedTeeOver<V, A>,
    rest: Vec<Pass<V, A>>,
    first: Pass<V, A>,
    second: Pass<V, A>,
) -> Vec<Pass<V, A>>
    requires first { IsPassOf tee.now first }
    requires second { IsPassOf tee.now second }
    requires whole { (a b : PassView V A) → IsPassOf tee.now a → IsPassOf tee.now b
        → a.app ≡ 0 → a.client ≡ 0 → b.app ≡ 1 → b.client ≡ 0
        → ArePasses tee.now (a ∷ insert rest.items 7 b) }
    ensures { ArePasses tee.now result.items }
{
    check_place(rt, &first, 0);
    check_place(rt, &second, 1);
    let mut passes = rest;
    put(rt, &mut passes, 7, second);
    put(rt, &mut passes, 0, first);
    passes
}

/// An object that is made anew, with its content.
fn object(rt: &impl Abort, alloc: Global) -> Params {
    Params {
        p0: Param::MemIn(bytes(rt, alloc, b"a")),
        p1: Param::ValueIn(0x401, 0),
        p2: Param::MemIn(bytes(rt, alloc, b"content")),
        p3: Param::ValueOut,
    }
}

/// The parameters of a session's call.
fn params_of(rt: &impl Abort, alloc: Global, step: usize) -> Params {
    match step {
        1 => object(rt, alloc),
        2 => Params {
            p0: Param::MemOut(16),
            ..Params::nothing()
        },
        3 => Params {
            p0: Param::ValueIn(1, 0),
            ..Params::nothing()
        },
        _ => Params::nothing(),
    }
}

/// Opens a session, makes an object anew, draws bytes, closes the object's handle, or closes the session.
fn make<V: Volume, A: Application>(
    tee: &SharedTeeOver<V, A>,
    pass: &mut Pass<V, A>,
    step: usize,
    params: &Params,
) -> Result<Posted, SharedAnswer>
    requires of { IsPassOf tee.now pass.old }
    requires few { pass.old.calls < 2 ^ 60 }
    ensures { IsPassOf tee.now pass.new }
{
    match step {
        0 => tee.open_session(pass, 1, Login::User(1000), params),
        1 => tee.invoke(pass, 1, 2, params),
        2 => tee.invoke(pass, 1, 15, params),
        3 => tee.invoke(pass, 1, 3, params),
        _ => tee.close_session(pass, 1),
    }
}

/// One of a session's calls, which has to be made.
fn call<V: Volume, A: Application>(
    rt: &impl Abort,
    alloc: Global,
    tee: &SharedTeeOver<V, A>,
    pass: &mut Pass<V, A>,
    step: usize,
)
    requires { IsPassOf tee.now pass.old }
    ensures { IsPassOf tee.now pass.new }
{
    check_few(rt, pass);
    let params = params_of(rt, alloc, step);
    let made = make(tee, pass, step, &params).is_ok();
    drop(params);
    assert!(rt; made);
}

/// A turn, which is tried again where it finds the storage's cell taken.
fn turn<V: Volume, A: Application>(
    rt: &impl Abort,
    tee: &SharedTeeOver<V, A>,
    pass: &mut Pass<V, A>,
)
    requires { IsPassOf tee.now pass.old }
    ensures { IsPassOf tee.now pass.new }
{
    for _ in 0..TRIES {
        check_few(rt, pass);
        match tee.try_turn(pass, 1) {
            Ok(_) => return,
            Err(why) => assert!(rt; matches!(why, SharedAnswer::Busy(_))),
        }
    }
    panic!(rt; "no turn");
}

fn turns<V: Volume, A: Application>(
    rt: &impl Abort,
    tee: &SharedTeeOver<V, A>,
    pass: &mut Pass<V, A>,
)
    requires { IsPassOf tee.now pass.old }
    ensures { IsPassOf tee.now pass.new }
{
    for _ in 0..TURNS {
        turn(rt, tee, pass);
    }
}

/// The calls of one session after another, each with its turns.
fn work<V: Volume, A: Application>(
    rt: &impl Abort,
    alloc: Global,
    tee: &SharedTeeOver<V, A>,
    pass: Pass<V, A>,
) -> Pass<V, A>
    requires { IsPassOf tee.now pass }
    ensures { IsPassOf tee.now result }
{
    let mut pass = pass;
    for number in 0..CALLS {
        call(rt, alloc, tee, &mut pass, number % 5);
        turns(rt, tee, &mut pass);
    }
    pass
}

/// Each of two passes works in a thread of its own.
fn work_beside<R: Threads + Abort + Sync, V: Volume + Send, A: Application + Send>(
    rt: &R,
    alloc: Global,
    tee: &SharedTeeOver<V, A>,
    first: Pass<V, A>,
    second: Pass<V, A>,
) -> (Pass<V, A>, Pass<V, A>)
    requires first { IsPassOf tee.now first }
    requires second { IsPassOf tee.now second }
    ensures first { IsPassOf tee.now result.0 }
    ensures second { IsPassOf tee.now result.1 }
{
    join(
        rt,
        move || -> Pass<V, A>
            requires { IsSync R.row × IsSend V.row × IsSend A.row × IsPassOf tee.now first }
            ensures { IsPassOf tee.entry.now result }
        { work(rt, alloc, tee, first) },
        move || -> Pass<V, A>
            requires { IsSync R.row × IsSend V.row × IsSend A.row × IsPassOf tee.now second }
            ensures { IsPassOf tee.entry.now result }
        { work(rt, alloc, tee, second) },
    )
}

fn is_shown(one: &Shown, other: &Shown) -> bool {
    match (one, other) {
        (Shown::Nothing, Shown::Nothing) => true,
        (Shown::Value(a, b), Shown::Value(c, d)) => a == c && b == d,
        (
            Shown::Mem { size, bytes },
            Shown::Mem {
                size: wanted,
                bytes: content,
            },
        ) => size == wanted && bytes.as_slice() == content.as_slice(),
        (Shown::Size(size), Shown::Size(wanted)) => size == wanted,
        _ => false,
    }
}

fn are_shown(one: &Outputs, other: &Outputs) -> bool {
    is_shown(&one.p0, &other.p0)
        && is_shown(&one.p1, &other.p1)
        && is_shown(&one.p2, &other.p2)
        && is_shown(&one.p3, &other.p3)
}

/// Two replies are the same, and tell of success.
fn check_reply(rt: &impl Abort, one: &Reply, other: &Reply) {
    assert!(rt; one.op == other.op && one.code == other.code && one.origin == other.origin);
    assert!(rt; are_shown(&one.outputs, &other.outputs));
    assert!(rt; one.code == Code::SUCCESS);
}

/// So many replies are the first of the logged ones. The rest of those.
fn check_replies<'a>(
    rt: &impl Abort,
    logged: &'a [Reply],
    count: u8,
    replies: &Replies,
) -> &'a [Reply] {
    let replies = replies.as_slice();
    assert!(rt; replies.len() == usize::from(count) && replies.len() <= logged.len());
    for (reply, wanted) in replies.iter().zip(logged.iter()) {
        check_reply(rt, reply, wanted);
    }
    &logged[replies.len()..]
}

/// A turn that goes as it is to.
fn turn_alone<S: AppStore, A: Application>(
    rt: &impl Abort,
    side: &mut AppSide<A>,
    store: &mut S,
    instance: u8,
) -> Replies
    requires { is_lost side.old ≡ (S.keeper.status store.old).lost }
    ensures { is_lost side.new ≡ (S.keeper.status store.new).lost }
{
    assert!(rt; side.turns() < MOST);
    let turned = side.turn(instance, store);
    assert!(rt; turned.kind == TurnKind::Plain);
    turned.replies
}

/// What the application answers to the event of an entry: a call or a turn.
fn answers<S: AppStore, A: Application>(
    rt: &impl Abort,
    alloc: Global,
    side: &mut AppSide<A>,
    store: &mut S,
    entry: &LogEntry,
) -> Replies
    requires { is_lost side.old ≡ (S.keeper.status store.old).lost }
    ensures { is_lost side.new ≡ (S.keeper.status store.new).lost }
{
    match &entry.event {
        LogEvent::Call(call) => {
            assert!(rt; entry.client < limits::MAX_CLIENTS);
            let call = copy_call(alloc, call).expect(rt, "a copy");
            side.call(entry.client, call).expect(rt, "a call").replies
        }
        LogEvent::Turn(instance) => turn_alone(rt, side, store, *instance),
        _ => panic!(rt; "an entry of another kind"),
    }
}

/// The application, with a store of its own, answers each entry with its replies.
fn fold<S: AppStore, A: Application>(
    rt: &impl Abort,
    alloc: Global,
    log: &AppLog,
    side: &mut AppSide<A>,
    store: &mut S,
)
    requires { is_lost side.old ≡ (S.keeper.status store.old).lost }
{
    let (entries, logged) = log.parts();
    let mut rest = logged;
    for entry in entries {
        let replies = answers(rt, alloc, side, store, entry);
        rest = check_replies(rt, rest, entry.replies, &replies);
        drop(replies);
    }
    assert!(rt; rest.is_empty());
}

/// Folds the log of the application at this place with one that has run nothing.
fn fold_anew<A: Application>(
    rt: &impl Abort,
    alloc: Global,
    host: Host<A>,
    place: u8,
    log: &AppLog,
) {
    let mut side = AppSide::new(alloc, host, place, SEED).expect(rt, "an application");
    let mut store = MapStore::new(alloc, &[]).expect(rt, "a store");
    fold(rt, alloc, log, &mut side, &mut store);
    drop(store);
    drop(side);
}

/// Whether the call is an open by the user 1000.
fn is_by_user(call: &Call) -> bool {
    match call {
        Call::Open { login, .. } => match login {
            Login::User(number) => *number == 1000,
            _ => false,
        },
        _ => false,
    }
}

/// Whether the entry is the open of the user 1000.
fn is_opened_by_user(entry: &LogEntry) -> bool {
    match &entry.event {
        LogEvent::Call(call) => is_by_user(call),
        _ => false,
    }
}

/// The log has a thread's calls with their turns, a reply to each call, and first the open with its login.
fn check_counts(rt: &impl Abort, log: &AppLog) {
    let (entries, replies) = log.parts();
    assert!(rt; replies.len() == CALLS && entries.len() == CALLS * (1 + TURNS));
    assert!(rt; is_opened_by_user(&entries[0]));
}

/// Folds the logs of both applications.
fn fold_both<A: Application>(rt: &impl Abort, alloc: Global, hosts: Vec<Host<A>>, logs: &[AppLog]) {
    assert!(rt; hosts.len() == 2 && logs.len() == 2);
    let mut place = 0u8;
    for (host, log) in hosts.into_iter().zip(logs.iter()) {
        check_counts(rt, log);
        fold_anew(rt, alloc, host, place, log);
        place = 1;
    }
}

/// The first client's passes of both applications work, and the whole list comes back.
fn work_all<R: Threads + Abort + Sync, V: Volume + Send, A: Application + Send>(
    rt: &R,
    alloc: Global,
    tee: &SharedTeeOver<V, A>,
    passes: Vec<Pass<V, A>>,
) -> Vec<Pass<V, A>>
    requires { ArePasses tee.now passes.items }
    ensures { ArePasses tee.now result.items }
{
    assert!(rt; passes.len() == PASSES);
    let (vault, keep, rest) = two_of(tee, passes);
    let (vault, keep) = work_beside(rt, alloc, tee, vault, keep);
    put_back(rt, tee, rest, vault, keep)
}

/// The logs when both have worked, and the board.
fn finish<R: Threads + Abort + Sync, B: Board, V: BoardVolume<B> + Send, A: Application + Send>(
    rt: &R,
    alloc: Global,
    tee: SharedTeeOver<V, A>,
    passes: Vec<Pass<V, A>>,
) -> (Vec<AppLog>, B)
    requires { ArePasses tee passes.items }
{
    let passes = work_all(rt, alloc, &tee, passes);
    tee.finish(passes)
}

#[test]
fn the_logs_are_what_the_applications_answer_alone(rt: HostRuntime) {
    let alloc = rt.alloc();
    let (tee, passes) = begun(&rt, alloc, Store::Idle, Store::Idle);
    let (logs, board): (Vec<AppLog>, MemBoard) = finish(&rt, alloc, tee, passes);
    drop(board);
    fold_both(
        &rt,
        alloc,
        hosts(&rt, alloc, Store::Idle, Store::Idle),
        logs.as_slice(),
    );
    drop(logs);
}
