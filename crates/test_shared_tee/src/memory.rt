//! Blocks of shared memory of two clients of one application, in one thread.

ghost use Rattle.std.specs.Prelude.{◌≡◌, true};
ghost use Rattle.app_api.specs.Calls.{is_memory_call};
ghost use Rattle.shared_tee.specs.Ending.{ArePasses};
ghost use Rattle.shared_tee.specs.Passes.{IsPassOf};

use super::shared::{begun, bytes, check_few, post_and_turn, turn, turn_for, two_passes};
use alone::{Call, Reply, Shown};
use app_api::{Application, Param, Params};
use sample_apps::Store;
use shared_parts::SharedAnswer;
use shared_tee::{Pass, SharedTeeOver};
use std::alloc::Global;
use std::process::Abort;
use store_api::Volume;
use tee_base::Code;

/// Makes a call about shared memory. Its reply is there at once.
fn ask<V: Volume, A: Application>(
    rt: &impl Abort,
    tee: &SharedTeeOver<V, A>,
    pass: &mut Pass<V, A>,
    call: &Call,
) -> Reply
    requires memory { is_memory_call call.now ≡ true }
    requires of { IsPassOf tee.now pass.old }
    ensures { IsPassOf tee.now pass.new }
{
    check_few(rt, pass);
    let posted = tee.memory(pass, call).expect(rt, "a call");
    assert!(rt; posted.instance == 0);
    check_few(rt, pass);
    let found = tee.answer_of(pass, posted.op).expect(rt, "a look");
    found.expect(rt, "a reply")
}

/// The call is answered with this code.
fn check_code<V: Volume, A: Application>(
    rt: &impl Abort,
    tee: &SharedTeeOver<V, A>,
    pass: &mut Pass<V, A>,
    call: Call,
    code: Code,
)
    requires memory { is_memory_call call ≡ true }
    requires of { IsPassOf tee.now pass.old }
    ensures { IsPassOf tee.now pass.new }
{
    let reply = ask(rt, tee, pass, &call);
    let holds = reply.code == code;
    drop(reply);
    drop(call);
    assert!(rt; holds);
}

/// The client shares a block of eight bytes.
fn share<V: Volume, A: Application>(
    rt: &impl Abort,
    tee: &SharedTeeOver<V, A>,
    pass: &mut Pass<V, A>,
)
    requires { IsPassOf tee.now pass.old }
    ensures { IsPassOf tee.now pass.new }
{
    let call = Call::Share {
        block: 1,
        flags: 3,
        size: 8,
    };
    check_code(rt, tee, pass, call, Code::SUCCESS);
}

/// A part of four bytes at the end of the block, for output.
fn part() -> Params {
    Params {
        p0: Param::Part {
            block: 1,
            way: 2,
            at: 4,
            size: 4,
        },
        ..Params::nothing()
    }
}

/// The second client draws bytes into a part of its block. Meanwhile the first one fills the block that it has under that number.
fn draw_and_fill<V: Volume, A: Application>(
    rt: &impl Abort,
    alloc: Global,
    tee: &SharedTeeOver<V, A>,
    first: &mut Pass<V, A>,
    second: &mut Pass<V, A>,
)
    requires first { IsPassOf tee.now first.old }
    requires second { IsPassOf tee.now second.old }
    ensures first { IsPassOf tee.now first.new }
    ensures second { IsPassOf tee.now second.new }
{
    check_few(rt, second);
    let posted = tee.invoke(second, 1, 15, &part()).expect(rt, "a call");
    turn(rt, tee, second, 1);
    let call = Call::Fill {
        block: 1,
        at: 0,
        bytes: bytes(rt, alloc, b"contents"),
    };
    check_code(rt, tee, first, call, Code::SUCCESS);
    turn_for(rt, tee, second, first, posted.op);
}

/// The bytes that a reply shows.
fn shown(reply: &Reply) -> &[u8] {
    match &reply.outputs.p0 {
        Shown::Mem { bytes, .. } => bytes.as_slice(),
        _ => &[],
    }
}

/// The block of the first client has what it wrote, and that of the second one has what was drawn behind four zeros.
fn check_blocks<V: Volume, A: Application>(
    rt: &impl Abort,
    tee: &SharedTeeOver<V, A>,
    first: &mut Pass<V, A>,
    second: &mut Pass<V, A>,
)
    requires first { IsPassOf tee.now first.old }
    requires second { IsPassOf tee.now second.old }
    ensures second { IsPassOf tee.now second.new }
{
    let own = ask(rt, tee, first, &Call::Show { block: 1 });
    let other = ask(rt, tee, second, &Call::Show { block: 1 });
    let written = shown(&own) == b"contents".as_slice();
    let drawn = shown(&other);
    let holds = written && drawn.starts_with(&[0; 4]) && drawn != [0; 8].as_slice();
    drop(own);
    drop(other);
    assert!(rt; holds);
}

/// A log that has no place for one byte more refuses a call that brings it, and takes one that brings none.
pub fn check_full<V: Volume, A: Application>(
    rt: &impl Abort,
    alloc: Global,
    tee: &SharedTeeOver<V, A>,
    pass: &mut Pass<V, A>,
)
    requires { IsPassOf tee.now pass.old }
    ensures { IsPassOf tee.now pass.new }
{
    let one = Call::Fill {
        block: 1,
        at: 0,
        bytes: bytes(rt, alloc, b"a"),
    };
    check_few(rt, pass);
    let full = tee.memory(pass, &one);
    drop(one);
    assert!(rt; full == Err(SharedAnswer::LogFull));
    check_code(rt, tee, pass, Call::Show { block: 1 }, Code::ITEM_NOT_FOUND);
}

/// What the first two passes do with their blocks.
fn use_blocks<V: Volume, A: Application>(
    rt: &impl Abort,
    alloc: Global,
    tee: &SharedTeeOver<V, A>,
    passes: Vec<Pass<V, A>>,
)
    requires { ArePasses tee.now passes.items }
{
    let (mut first, mut second) = two_passes(rt, tee, passes, 0, 1);
    post_and_turn(rt, tee, &mut second, &mut first);
    share(rt, tee, &mut first);
    share(rt, tee, &mut second);
    draw_and_fill(rt, alloc, tee, &mut first, &mut second);
    check_blocks(rt, tee, &mut first, &mut second);
    drop(first);
    drop(second);
}

#[test]
fn each_client_has_blocks_of_its_own(rt: HostRuntime) {
    let (tee, passes) = begun(&rt, rt.alloc(), Store::Idle, Store::Idle);
    use_blocks(&rt, rt.alloc(), &tee, passes);
    drop(tee);
}
