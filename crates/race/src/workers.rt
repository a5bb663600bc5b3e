//! All clients of a race side by side.

ghost use Rattle.std.specs.Prelude.{◌≡◌, ◌<◌, ◌^◌, IfErr, OnOk, length};
ghost use Rattle.shared_tee.specs.Ending.{ArePasses};
ghost use Rattle.race.specs.Wishes.{NameApps};
ghost use Rattle.race.specs.Clients.{AllKnowMore};
ghost use Rattle.race.specs.Outcomes.{IsOutcome, worse_of};
ghost use Rattle.race.specs.Racing.{AllFollow, AllFollowTill, IsFilled, KnowNone};

use crate::client::Stopped;
use crate::dealing::{deal, gather, idle_workers};
use crate::worker::{Worker, run_all};
use app_api::Application;
use script::Line;
use shared_parts::CLIENTS;
use shared_tee::{Gate, Pass, SharedTeeOver};
use std::alloc::Global;
use std::sync::Wait;
use std::thread::Threads;
use store_api::Volume;

/// How a race ends in which one worker ended so, and another so behind it: want of memory counts most, and the first of two full
/// logs.
fn worse(first: Result<(), Stopped>, other: Result<(), Stopped>) -> Result<(), Stopped>
    ensures { result ≡ worse_of first other }
{
    match (first, other) {
        (Ok(()), other) => other,
        (Err(Stopped::LogFull(_)), Err(Stopped::NoMemory)) => Err(Stopped::NoMemory),
        (first, _) => first,
    }
}

/// How the race ended.
fn outcome<V: Volume, A: Application>(workers: &[Worker<V, A>]) -> Result<(), Stopped>
    ensures { IsOutcome (length workers.now) workers.now result }
{
    let mut ended = Ok(());
    for worker in workers {
        ended = worse(ended, worker.ended);
    }
    ended
}

/// Makes the lines of all clients, each client's in a thread of its own where one can be started, with its passes of all
/// applications. All passes come back in their order, whatever its end. The passes are all that the runtime began with, in the
/// order in which it gave them.
///
/// # Errors
///
/// `NoMemory` where a worker had none, or there was none for the workers. `LogFull` where a line found the log of that application
/// full. The other workers go on to their ends. The first lines of each client are made then.
pub(crate) fn race_all<R: Threads + Wait + Sync, V: Volume + Send, A: Application + Send, G: Gate>(
    rt: &R,
    alloc: Global,
    shared: &SharedTeeOver<V, A>,
    gate: &G,
    lines: &[Line],
    passes: Vec<Pass<V, A>>,
) -> (Vec<Pass<V, A>>, Result<(), Stopped>)
    requires named { NameApps (length shared.now.cells) lines.now }
    requires few { length lines.now < 2 ^ 32 }
    requires passes { ArePasses shared.now passes.items }
    requires none { KnowNone passes.items }
    ensures back { ArePasses shared.now result.0.items }
    ensures known { AllKnowMore passes.items result.0.items }
    ensures ok { OnOk result.1 (AllFollow V.keeper A.behaviour lines.now result.0.items) }
    ensures err { IfErr result.1 (λ why.
        AllFollowTill V.keeper A.behaviour why lines.now result.0.items) }
    ensures full { IfErr result.1 (λ why.
        IsFilled V.keeper A.behaviour why lines.now result.0.items) }
{
    let apps = passes.len() / CLIENTS;
    let Ok(mut workers) = idle_workers(alloc, apps) else {
        return (passes, Err(Stopped::NoMemory));
    };
    let mut passes = passes;
    deal(&mut passes, &mut workers);
    let mut workers = run_all(rt, shared, gate, lines, workers);
    let ended = outcome(workers.as_slice());
    gather(apps, &mut workers, &mut passes);
    (passes, ended)
}
