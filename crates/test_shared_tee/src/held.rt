//! Ten calls on `keep` while another thread holds `vault`: an entry of `vault` doesn't end before they are made.

ghost use Rattle.std.specs.Prelude.{ℕ};
ghost use Rattle.std.specs.Thread.{IsSend, IsSync};
ghost use Rattle.app_api.specs.declared.ask.Ask.TheVariants.{CancelFlag};
ghost use Rattle.shared_tee.specs.Ending.{ArePasses};
ghost use Rattle.shared_tee.specs.Passes.{IsPassOf};

use super::shared::{begun, open, turn, two_passes};
use app_api::{Application, Ask, Given, Params};
use shared_tee::{Pass, SharedTeeOver};
use std::alloc::Global;
use std::marker::Model;
use std::process::Abort;
use std::sync::Arc;
use std::sync::atomic::{AtomicU64, Ordering};
use std::thread::{Threads, join};
use store_api::Volume;
use tee_base::NoMemory;

/// The next step stays.
const SET: u64 = 0;

/// A step is there.
const THERE: u64 = 1;

/// It may go, and no other stays.
const OPEN: u64 = 2;

/// How often a thread looks before it gives up.
const LOOKS: u64 = 1 << 40;

/// How many turns `vault` makes. The first steps are among them.
const TURNS: u32 = 4;

/// How many calls are made meanwhile, and as many turns.
const CALLS: u32 = 10;

/// Where one step stays until it is let go.
#[derive(Drop)]
struct Latch {
    word: AtomicU64,
}

impl Latch {
    fn new() -> Latch {
        Latch {
            word: AtomicU64::new(SET),
        }
    }

    /// Whether the word was this one. It is the other one then.
    fn moves(&self, from: u64, to: u64) -> bool {
        self.word
            .compare_exchange(from, to, Ordering::SeqCst, Ordering::SeqCst)
            .is_ok()
    }

    /// The first step stays here until it is let go.
    fn stay(&self) {
        if !self.moves(SET, THERE) {
            return;
        }
        for _ in 0..LOOKS {
            if self.is_open() {
                return;
            }
        }
    }

    /// Whether the step was let go.
    fn is_open(&self) -> bool {
        self.word.load(Ordering::SeqCst) == OPEN
    }

    /// Waits for the step that stays.
    fn await_step(&self, rt: &impl Abort) {
        for _ in 0..LOOKS {
            if self.word.load(Ordering::SeqCst) == THERE {
                return;
            }
        }
        panic!(rt; "no step");
    }
}

/// An application that asks for the same again and again. One with a latch stays there in its first step.
#[derive(Drop)]
struct Staying {
    latch: Option<Arc<Latch, Global>>,
}

impl Model for Staying {
    ghost use Rattle.std.specs.Prelude.{ℕ};

    ghost Value = { ℕ };

    ghost view = { λ s. 0 };
}

impl Application for Staying {
    ghost behaviour = { record { next = λ state given. state; asks = λ state given. CancelFlag } };

    fn step(&mut self, _alloc: Global, _given: Given) -> Result<Ask, NoMemory> {
        if let Some(latch) = &self.latch {
            latch.stay();
        }
        Ok(Ask::CancelFlag)
    }

    fn fresh(&self, _alloc: Global) -> Result<Staying, NoMemory> {
        match &self.latch {
            None => Ok(Staying { latch: None }),
            Some(latch) => match Arc::try_clone(latch) {
                Ok(latch) => Ok(Staying { latch: Some(latch) }),
                Err(_) => Err(NoMemory),
            },
        }
    }
}

/// Turns of `vault`, until a step was let go.
fn turn_and_stay<V: Volume, A: Application>(
    rt: &impl Abort,
    tee: &SharedTeeOver<V, A>,
    pass: Pass<V, A>,
    latch: &Latch,
)
    requires { IsPassOf tee.now pass }
{
    let mut pass = pass;
    for _ in 0..TURNS {
        turn(rt, tee, &mut pass, 1);
    }
    assert!(rt; latch.is_open());
    drop(pass);
}

/// As soon as the step stays, ten calls and ten turns of `keep`, each of which has to be made. Then the step is let go: it stayed till then.
fn call_meanwhile<V: Volume, A: Application>(
    rt: &impl Abort,
    tee: &SharedTeeOver<V, A>,
    pass: Pass<V, A>,
    latch: &Latch,
)
    requires { IsPassOf tee.now pass }
{
    let mut pass = pass;
    latch.await_step(rt);
    for _ in 0..CALLS {
        let made = open(rt, tee, &mut pass, &Params::nothing()).is_ok();
        assert!(rt; made);
        turn(rt, tee, &mut pass, 1);
    }
    assert!(rt; latch.moves(THERE, OPEN));
    drop(pass);
}

/// Both in threads of their own.
fn beside<R: Threads + Abort + Sync, V: Volume + Send, A: Application + Send>(
    rt: &R,
    tee: &SharedTeeOver<V, A>,
    vault: Pass<V, A>,
    keep: Pass<V, A>,
    latch: &Latch,
)
    requires vault { IsPassOf tee.now vault }
    requires keep { IsPassOf tee.now keep }
{
    join(
        rt,
        move ||
            requires { IsSync R.row × IsSend V.row × IsSend A.row × IsPassOf tee.now vault }
        { turn_and_stay(rt, tee, vault, latch) },
        move ||
            requires { IsSync R.row × IsSend V.row × IsSend A.row × IsPassOf tee.now keep }
        { call_meanwhile(rt, tee, keep, latch) },
    );
}

/// A session of `vault` is posted, and then both are at work.
fn post_and_stay<R: Threads + Abort + Sync, V: Volume + Send, A: Application + Send>(
    rt: &R,
    tee: &SharedTeeOver<V, A>,
    passes: Vec<Pass<V, A>>,
    latch: &Latch,
)
    requires { ArePasses tee.now passes.items }
{
    let (mut vault, keep) = two_passes(rt, tee, passes, 0, 8);
    let posted = open(rt, tee, &mut vault, &Params::nothing()).is_ok();
    assert!(rt; posted);
    beside(rt, tee, vault, keep, latch);
}

#[test]
fn no_call_of_keep_finds_vault_in_its_way(rt: HostRuntime) {
    let latch = Arc::new(rt.alloc(), Latch::new()).expect(&rt, "a latch");
    let theirs = Arc::try_clone(&latch).expect(&rt, "a latch");
    let vault = Staying {
        latch: Some(theirs),
    };
    let (tee, passes) = begun(&rt, rt.alloc(), vault, Staying { latch: None });
    post_and_stay(&rt, &tee, passes, &latch);
    drop(tee);
    drop(latch);
}
