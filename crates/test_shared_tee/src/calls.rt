//! Calls of two passes of one application, in one thread.

ghost use Rattle.shared_tee.specs.Ending.{ArePasses};
ghost use Rattle.shared_tee.specs.Passes.{IsPassOf};

use super::memory::check_full;
use super::shared::{begun, open, post_and_turn, two_passes, with_bytes};
use app_api::{Application, Params};
use sample_apps::Store;
use shared_parts::SharedAnswer;
use shared_tee::{Pass, SharedTeeOver};
use std::alloc::Global;
use std::process::Abort;
use store_api::Volume;

/// How many calls with so many bytes fill a log, which holds 67,108,864 bytes.
const CALLS: usize = 128;

const MANY: usize = 524_288;

/// The log takes so many bytes and no more; a call without bytes still has its place.
fn fill<V: Volume, A: Application>(
    rt: &impl Abort,
    alloc: Global,
    tee: &SharedTeeOver<V, A>,
    pass: &mut Pass<V, A>,
)
    requires { IsPassOf tee.now pass.old }
{
    let many = with_bytes(rt, alloc, MANY);
    for _ in 0..CALLS {
        let made = open(rt, tee, pass, &many).is_ok();
        assert!(rt; made);
    }
    drop(many);
    let one = with_bytes(rt, alloc, 1);
    let full = open(rt, tee, pass, &one);
    drop(one);
    assert!(rt; full == Err(SharedAnswer::LogFull));
    check_full(rt, alloc, tee, pass);
    let made = open(rt, tee, pass, &Params::nothing()).is_ok();
    assert!(rt; made);
}

/// The calls of the first two passes.
fn make_calls<V: Volume, A: Application>(
    rt: &impl Abort,
    alloc: Global,
    tee: &SharedTeeOver<V, A>,
    passes: Vec<Pass<V, A>>,
)
    requires { ArePasses tee.now passes.items }
{
    let (mut first, mut second) = two_passes(rt, tee, passes, 0, 1);
    post_and_turn(rt, tee, &mut first, &mut second);
    drop(second);
    fill(rt, alloc, tee, &mut first);
    drop(first);
}

#[test]
fn one_posts_and_another_turns_until_the_log_is_full(rt: HostRuntime) {
    let (tee, passes) = begun(&rt, rt.alloc(), Store::Idle, Store::Idle);
    make_calls(&rt, rt.alloc(), &tee, passes);
    drop(tee);
}
