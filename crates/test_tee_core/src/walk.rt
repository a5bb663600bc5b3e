//! A walk through the calls: events of both, a change that a fuse stops, a loss of the power, and the board in the end.

ghost use Rattle.std.specs.Prelude.{◌≡◌, ◌<◌};
ghost use Rattle.tee_core.specs.Represents.{IsOfClient, app_count, app_of, boots_of};

use super::asking::{FEW, Pair, keep, length_of, make, over, run, session, succeed, two};
use board::Board;
use boards::MemBoard;
use std::alloc::Global;
use std::process::Abort;
use tee_base::Code;
use tee_core::{Event, Happened, Power, TurnKind};

/// Makes something happen to the second application.
fn happen(rt: &impl Abort, tee: &mut Pair, event: Event) -> Happened
    requires known { 1 < app_count tee.old }
    requires own { app_of event ≡ 1 }
    requires client { IsOfClient event }
    ensures apps { app_count tee.new ≡ app_count tee.old }
    ensures boots { boots_of tee.new ≡ boots_of tee.old }
{
    assert!(rt; tee.turns(1) < FEW);
    tee.event(event).expect(rt, "an event")
}

/// A first call, which opens a session: it waits for the first instance.
fn call(rt: &impl Abort, tee: &mut Pair)
    requires { 1 < app_count tee.old }
    ensures apps { app_count tee.new ≡ app_count tee.old }
    ensures boots { boots_of tee.new ≡ boots_of tee.old }
{
    let event = Event::Call {
        app: 1,
        client: 0,
        call: session(),
    };
    let called = happen(rt, tee, event);
    let holds = called.turn == 0 && called.op == 1 && called.instance == 1;
    drop(called);
    assert!(rt; holds);
}

/// The first turn, in which the call begins.
fn turn(rt: &impl Abort, tee: &mut Pair)
    requires { 1 < app_count tee.old }
    ensures apps { app_count tee.new ≡ app_count tee.old }
    ensures boots { boots_of tee.new ≡ boots_of tee.old }
{
    let event = Event::Turn {
        app: 1,
        instance: 1,
    };
    let turned = happen(rt, tee, event);
    let holds = turned.kind == TurnKind::Plain && turned.turn == 1 && turned.replies.is_empty();
    drop(turned);
    assert!(rt; holds);
}

/// A cancellation, which isn't answered: the call has begun.
fn cancel(rt: &impl Abort, tee: &mut Pair)
    requires { 1 < app_count tee.old }
    ensures apps { app_count tee.new ≡ app_count tee.old }
    ensures boots { boots_of tee.new ≡ boots_of tee.old }
{
    let cancelled = happen(rt, tee, Event::Cancel { app: 1, op: 1 });
    let holds = cancelled.op == 1 && cancelled.instance == 0 && cancelled.replies.is_empty();
    drop(cancelled);
    assert!(rt; holds);
    assert!(rt; !tee.answered(1, 1));
}

/// The first application keeps an object of nine bytes, while the second one's call, its turn and its cancellation stand.
fn work(rt: &impl Abort, alloc: Global, tee: &mut Pair)
    requires { app_count tee.old ≡ 2 }
    ensures apps { app_count tee.new ≡ 2 }
    ensures boots { boots_of tee.new ≡ boots_of tee.old }
{
    call(rt, tee);
    succeed(rt, tee, 0, session());
    turn(rt, tee);
    keep(rt, alloc, tee, 0, b"a", 9);
    cancel(rt, tee);
}

/// A change is stopped, and the power comes back without it. The board then takes a last order.
fn lose(rt: &impl Abort, alloc: Global, tee: &mut Pair)
    requires apps { app_count tee.old ≡ 2 }
    requires boots { boots_of tee.old ≡ 0 }
{
    tee.fuse(0);
    let went = run(rt, tee, 0, make(rt, alloc, b"a", 18));
    let power = tee.power(0).expect(rt, "a power");
    let holds = went.code == Code::STORAGE_NOT_AVAILABLE && went.lost == Some(true);
    assert!(rt; holds && power == Power::Absent(0) && tee.boots() == 1);
    tee.fuse(1_000_000);
}

/// The board has the three orders, and the last of them stands.
fn check_orders(rt: &impl Abort, board: &MemBoard) {
    let holds = board.orders() == 3 && board.ordered() == 1_000_000;
    assert!(rt; holds);
}

/// The object is the one from before the change that was stopped.
fn find_again(rt: &impl Abort, alloc: Global, tee: &mut Pair)
    requires { app_count tee.old ≡ 2 }
{
    succeed(rt, tee, 0, session());
    let length = length_of(rt, alloc, tee, 0, b"a");
    assert!(rt; length == 9);
}

#[test]
fn calls_side_by_side(rt: HostRuntime) {
    let mut tee = two(&rt, rt.alloc());
    work(&rt, rt.alloc(), &mut tee);
    lose(&rt, rt.alloc(), &mut tee);
    let board = tee.into_board();
    check_orders(&rt, &board);
    let mut tee = over(&rt, rt.alloc(), board);
    find_again(&rt, rt.alloc(), &mut tee);
    drop(tee);
}
