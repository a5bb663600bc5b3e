//! Applications over a board in memory, and what is asked of them with a pass.

ghost use Rattle.std.specs.Prelude.{◌<◌, ◌^◌, IfOk};
ghost use Rattle.app_api.specs.Hosts.{HostsFit};
ghost use Rattle.shared_tee.specs.Ending.{ArePasses};
ghost use Rattle.shared_tee.specs.Passes.{IsPassOf};

use crate::pair::pair_of;
use app_api::{Application, Host, Login, Param, Params, Properties, hosts_fit};
use boards::MemBoard;
use epoch::{OpenAnswer, Unopened};
use shared_parts::{Posted, SharedAnswer};
use shared_tee::{Pass, SharedTee, SharedTeeOver};
use std::alloc::Global;
use std::process::Abort;
use store_api::Volume;
use tee_base::{Bytes, Code};
use tee_core::VolumeInUse;
use uuid::Uuid;

pub type Runtime<A> = SharedTee<MemBoard, A>;

pub type OnePass<A> = Pass<VolumeInUse<MemBoard>, A>;

const KEY: [u8; 32] = [7; 32];

const BLOCKS: u64 = 43_720;

pub const SEED: [u8; 32] = [9; 32];

/// How many passes two applications have.
pub const PASSES: usize = 16;

/// The bytes in memory of their own.
pub fn bytes(rt: &impl Abort, alloc: Global, from: &[u8]) -> Bytes {
    Bytes::from_slice(alloc, from).expect(rt, "bytes")
}

fn host<A: Application>(
    rt: &impl Abort,
    alloc: Global,
    name: &[u8],
    id: u128,
    template: A,
) -> Host<A> {
    Host {
        name: bytes(rt, alloc, name),
        id: Uuid::from_u128(id),
        properties: Properties {
            single: true,
            multi: true,
            keep: true,
        },
        template,
    }
}

/// The hosts `vault` and `keep`.
pub fn hosts<A: Application>(rt: &impl Abort, alloc: Global, vault: A, keep: A) -> Vec<Host<A>>
    ensures { HostsFit result.items }
{
    let mut hosts = Vec::new(alloc);
    hosts
        .push(host(rt, alloc, b"vault", 1, vault))
        .expect(rt, "room");
    hosts
        .push(host(rt, alloc, b"keep", 2, keep))
        .expect(rt, "room");
    assert!(rt; hosts_fit(hosts.as_slice()));
    hosts
}

fn opened<A: Application>(
    alloc: Global,
    board: MemBoard,
    hosts: Vec<Host<A>>,
) -> Result<(Runtime<A>, Vec<OnePass<A>>), OpenAnswer>
    requires { HostsFit hosts.items }
    ensures { IfOk result (λ made. ArePasses made.0 made.1.items) }
{
    match SharedTee::new(alloc, board, hosts, SEED) {
        Ok(made) => Ok(made),
        Err(unopened) => {
            let Unopened { board, why } = unopened;
            drop(board);
            Err(why)
        }
    }
}

/// `vault` and `keep` over a blank board, and all passes. Those of `vault` are the first eight.
pub fn begun<A: Application>(
    rt: &impl Abort,
    alloc: Global,
    vault: A,
    keep: A,
) -> (Runtime<A>, Vec<OnePass<A>>)
    ensures { ArePasses result.0 result.1.items }
{
    let hosts = hosts(rt, alloc, vault, keep);
    let board = MemBoard::blank(alloc, KEY, BLOCKS).expect(rt, "a board");
    opened(alloc, board, hosts).expect(rt, "a beginning")
}

/// The passes at two places. The others are dropped.
pub fn two_passes<V: Volume, A: Application>(
    rt: &impl Abort,
    tee: &SharedTeeOver<V, A>,
    passes: Vec<Pass<V, A>>,
    first: usize,
    second: usize,
) -> (Pass<V, A>, Pass<V, A>)
    requires all { ArePasses tee.now passes.items }
    requires order { first < second }
    requires there { second < 16 }
    ensures first { IsPassOf tee.now result.0 }
    ensures second { IsPassOf tee.now result.1 }
{
    assert!(rt; passes.len() == PASSES);
    pair_of(passes, first, second)
}

/// The pass may make a call.
pub fn check_few<V: Volume, A: Application>(rt: &impl Abort, pass: &Pass<V, A>)
    ensures { pass.now.calls < 2 ^ 60 }
{
    assert!(rt; pass.calls() < 1 << 60);
}

/// Opens a session with the label 1.
pub fn open<V: Volume, A: Application>(
    rt: &impl Abort,
    tee: &SharedTeeOver<V, A>,
    pass: &mut Pass<V, A>,
    params: &Params,
) -> Result<Posted, SharedAnswer>
    requires { IsPassOf tee.now pass.old }
    ensures { IsPassOf tee.now pass.new }
{
    check_few(rt, pass);
    tee.open_session(pass, 1, Login::Public, params)
}

/// A turn of the instance, which has to be made.
pub fn turn<V: Volume, A: Application>(
    rt: &impl Abort,
    tee: &SharedTeeOver<V, A>,
    pass: &mut Pass<V, A>,
    instance: u8,
)
    requires { IsPassOf tee.now pass.old }
    ensures { IsPassOf tee.now pass.new }
{
    check_few(rt, pass);
    let made = tee.try_turn(pass, instance).is_ok();
    assert!(rt; made);
}

/// Whether the log has the reply to the operation by now. It has to be a success.
pub fn is_answered<V: Volume, A: Application>(
    rt: &impl Abort,
    tee: &SharedTeeOver<V, A>,
    pass: &mut Pass<V, A>,
    op: u64,
) -> bool
    requires { IsPassOf tee.now pass.old }
    ensures { IsPassOf tee.now pass.new }
{
    check_few(rt, pass);
    let found = tee.answer_of(pass, op).expect(rt, "a look");
    match found {
        None => false,
        Some(reply) => {
            let holds = reply.op == op && reply.code == Code::SUCCESS;
            drop(reply);
            assert!(rt; holds);
            true
        }
    }
}

/// One client makes turns of the first instance, until another finds the reply to its operation.
pub fn turn_for<V: Volume, A: Application>(
    rt: &impl Abort,
    tee: &SharedTeeOver<V, A>,
    first: &mut Pass<V, A>,
    second: &mut Pass<V, A>,
    op: u64,
)
    requires first { IsPassOf tee.now first.old }
    requires second { IsPassOf tee.now second.old }
    ensures first { IsPassOf tee.now first.new }
    ensures second { IsPassOf tee.now second.new }
{
    for _ in 0..20 {
        if is_answered(rt, tee, first, op) {
            return;
        }
        turn(rt, tee, second, 1);
    }
    panic!(rt; "no answer");
}

/// One client opens a session, and another makes its turns. The first one finds the reply.
pub fn post_and_turn<V: Volume, A: Application>(
    rt: &impl Abort,
    tee: &SharedTeeOver<V, A>,
    first: &mut Pass<V, A>,
    second: &mut Pass<V, A>,
)
    requires first { IsPassOf tee.now first.old }
    requires second { IsPassOf tee.now second.old }
    ensures first { IsPassOf tee.now first.new }
    ensures second { IsPassOf tee.now second.new }
{
    let posted = open(rt, tee, first, &Params::nothing()).expect(rt, "a call");
    assert!(rt; posted.op == 1 && posted.instance == 1);
    turn_for(rt, tee, first, second, 1);
}

/// So many bytes as the first parameter.
pub fn with_bytes(rt: &impl Abort, alloc: Global, count: usize) -> Params {
    let zeros = Vec::from_elem(alloc, 0, count).expect(rt, "zeros");
    Params {
        p0: Param::MemIn(Bytes::from_vec(zeros)),
        ..Params::nothing()
    }
}
