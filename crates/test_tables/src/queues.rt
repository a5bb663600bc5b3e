//! A full queue, and the way of an operation through it.

use crate::beginning::begin;
use app_api::{Call, Param, Params, References};
use op_queue::{Cancelled, OpFacts, OpQueue, QueueAnswer};
use std::process::Abort;

fn invoke(label: u32) -> Call {
    Call::Invoke {
        label,
        command: 0,
        params: Params::nothing(),
    }
}

fn close(label: u32) -> Call {
    Call::Close { label }
}

/// Submits for client 3 and session 5, where numbers are left.
fn submit(queue: &mut OpQueue, instance: u8, call: Call) -> Option<Result<u64, QueueAnswer>> {
    if queue.next_number() < 1000 {
        Some(queue.submit(3, instance, 5, call))
    } else {
        drop(call);
        None
    }
}

fn skip(queue: &mut OpQueue) -> Option<u64> {
    if queue.next_number() < 1000 {
        Some(queue.skip())
    } else {
        None
    }
}

fn facts(instance: u8, running: bool, close: bool) -> Option<OpFacts> {
    Some(OpFacts {
        client: 3,
        instance,
        session: 5,
        references: References::none(),
        running,
        close,
    })
}

/// Sixteen calls, and one too many.
fn fill(rt: &impl Abort, queue: &mut OpQueue) {
    for op in 1..17u64 {
        assert!(rt; submit(queue, 1, invoke(0)) == Some(Ok(op)));
    }
    assert!(rt; submit(queue, 1, invoke(0)) == Some(Err(QueueAnswer::Full)));
}

/// A close finds room, and an operation that has begun still takes its place.
fn begin_one(rt: &impl Abort, queue: &mut OpQueue) {
    assert!(rt; submit(queue, 1, close(0)) == Some(Ok(17)));
    assert!(rt; begin(queue, 1) == Some(1));
    assert!(rt; submit(queue, 1, invoke(0)) == Some(Err(QueueAnswer::Full)));
}

/// One is answered, and another comes in its place; then closes, and one too many.
fn fill_again(rt: &impl Abort, queue: &mut OpQueue) {
    queue.answer(1);
    assert!(rt; submit(queue, 2, invoke(0)) == Some(Ok(18)));
    for op in 19..26u64 {
        assert!(rt; submit(queue, 1, close(0)) == Some(Ok(op)));
    }
    assert!(rt; submit(queue, 1, close(0)) == Some(Err(QueueAnswer::NoMemory)));
}

#[test]
fn sixteen_that_are_no_closes_and_eight_closes(rt: HostRuntime) {
    let mut queue = OpQueue::new(rt.alloc());
    fill(&rt, &mut queue);
    begin_one(&rt, &mut queue);
    fill_again(&rt, &mut queue);
    assert!(rt; queue.operations().len() == 24);
    queue.bounds();
    queue.forget();
    assert!(rt; queue.operations().len() == 0);
    assert!(rt; submit(&mut queue, 1, close(0)) == Some(Ok(26)));
}

/// Numbers go up, and a skipped one is used up.
fn submit_three(rt: &impl Abort, queue: &mut OpQueue) {
    assert!(rt; submit(queue, 1, invoke(0)) == Some(Ok(1)));
    assert!(rt; skip(queue) == Some(2));
    assert!(rt; submit(queue, 2, close(0)) == Some(Ok(3)));
    assert!(rt; submit(queue, 1, invoke(0)) == Some(Ok(4)));
}

/// What is known of those three.
fn look(rt: &impl Abort, queue: &mut OpQueue) {
    assert!(rt; queue.next_number() == 5);
    assert!(rt; queue.next_of(1, 0) == Some(1));
    assert!(rt; queue.next_of(1, 1) == Some(4));
    assert!(rt; queue.next_of(1, 4) == None);
    assert!(rt; queue.facts(2) == None);
    assert!(rt; queue.facts(3) == facts(2, false, true));
}

/// The operations of an instance begin in their order.
fn begin_three(rt: &impl Abort, queue: &mut OpQueue) {
    assert!(rt; begin(queue, 1) == Some(1));
    assert!(rt; queue.facts(1) == facts(1, true, false));
    assert!(rt; begin(queue, 1) == Some(4));
    assert!(rt; begin(queue, 1) == None);
    assert!(rt; begin(queue, 2) == Some(3));
    assert!(rt; queue.facts(3) == facts(2, true, true));
}

#[test]
fn numbers_in_order(rt: HostRuntime) {
    let mut queue = OpQueue::new(rt.alloc());
    submit_three(&rt, &mut queue);
    look(&rt, &mut queue);
    begin_three(&rt, &mut queue);
}

/// Two calls and a close, of which a request to cancel does nothing to the close.
fn submit_a_close(rt: &impl Abort, queue: &mut OpQueue) {
    assert!(rt; submit(queue, 1, invoke(0)) == Some(Ok(1)));
    assert!(rt; submit(queue, 1, invoke(0)) == Some(Ok(2)));
    assert!(rt; submit(queue, 1, close(0)) == Some(Ok(3)));
    assert!(rt; queue.cancel(3) == Cancelled::Nothing);
    assert!(rt; queue.cancel(4) == Cancelled::Nothing);
}

/// One that runs is flagged, and reads it while it is unmasked.
fn flag_one_that_runs(rt: &impl Abort, queue: &mut OpQueue) {
    assert!(rt; begin(queue, 1) == Some(1));
    assert!(rt; queue.cancel(1) == Cancelled::Flagged);
    assert!(rt; !queue.flag(1));
    assert!(rt; queue.unmask(1));
    assert!(rt; queue.flag(1));
    assert!(rt; !queue.mask(1));
    assert!(rt; !queue.flag(1));
}

/// One that has not begun is dropped.
fn drop_one_that_waits(rt: &impl Abort, queue: &mut OpQueue) {
    assert!(rt; queue.unmask(2));
    assert!(rt; queue.mask(2));
    assert!(rt; !queue.flag(2));
    assert!(rt; queue.cancel(2) == Cancelled::Dropped);
    assert!(rt; queue.unmask(2));
    assert!(rt; !queue.flag(2));
    assert!(rt; queue.facts(2) == None);
}

/// A close that runs isn't flagged.
fn leave_a_close(rt: &impl Abort, queue: &mut OpQueue) {
    assert!(rt; begin(queue, 1) == Some(3));
    assert!(rt; queue.cancel(3) == Cancelled::Nothing);
    assert!(rt; queue.unmask(3));
    assert!(rt; !queue.flag(3));
}

#[test]
fn what_a_request_does(rt: HostRuntime) {
    let mut queue = OpQueue::new(rt.alloc());
    submit_a_close(&rt, &mut queue);
    flag_one_that_runs(&rt, &mut queue);
    drop_one_that_waits(&rt, &mut queue);
    leave_a_close(&rt, &mut queue);
}

/// A call that refers to block 7 by its third parameter.
fn invoke_with_a_block() -> Call {
    Call::Invoke {
        label: 0,
        command: 0,
        params: Params {
            p2: Param::Whole(7),
            ..Params::nothing()
        },
    }
}

#[test]
fn a_block_is_named_until_the_answer(rt: HostRuntime) {
    let mut queue = OpQueue::new(rt.alloc());
    assert!(rt; submit(&mut queue, 1, invoke_with_a_block()) == Some(Ok(1)));
    assert!(rt; queue.is_named(3, 7) && !queue.is_named(3, 2) && !queue.is_named(2, 7));
    assert!(rt; begin(&mut queue, 1) == Some(1));
    assert!(rt; queue.is_named(3, 7));
    queue.answer(1);
    assert!(rt; !queue.is_named(3, 7));
}
