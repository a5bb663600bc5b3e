//! One worker of a race, and all of them side by side.

ghost use Rattle.std.specs.Prelude.{◌≡◌, ◌<◌, ◌^◌, length, vec_capacity, vec_len};
ghost use Rattle.std.specs.Thread.{IsSync, IsSend};
ghost use Rattle.race.specs.Workers.{AllHaveRun, AllMayRun, HasRun, MayRun};

use crate::client::{Stopped, run_lines};
use app_api::Application;
use script::Line;
use shared_tee::{Gate, Pass, SharedTeeOver};
use std::sync::Wait;
use std::thread::{Threads, join};
use store_api::Volume;

/// A client's passes, in the order of the applications, and how its lines ended.
#[derive(Drop)]
pub(crate) struct Worker<V: Volume, A: Application> {
    pub(crate) client: u8,
    pub(crate) passes: Vec<Pass<V, A>>,
    pub(crate) ended: Result<(), Stopped>,
}

impl<V: Volume, A: Application> Worker<V, A> {
    /// Makes the client's lines.
    fn run<R: Wait, G: Gate>(
        self,
        rt: &R,
        shared: &SharedTeeOver<V, A>,
        gate: &G,
        lines: &[Line],
    ) -> Worker<V, A>
        requires few { length lines.now < 2 ^ 32 }
        requires ready { MayRun V.keeper A.behaviour shared.now lines.now self }
        ensures { HasRun V.keeper A.behaviour shared.now lines.now self result }
    {
        let mut worker = self;
        let passes = worker.passes.as_mut_slice();
        worker.ended = run_lines(rt, shared, gate, worker.client, lines, passes);
        worker
    }
}

/// All workers make their lines, each in a thread of its own where one can be started. Each comes back, whatever its end.
#[cycle(workers)]
pub(crate) fn run_all<R: Threads + Wait + Sync, V: Volume + Send, A: Application + Send, G: Gate>(
    rt: &R,
    shared: &SharedTeeOver<V, A>,
    gate: &G,
    lines: &[Line],
    workers: Vec<Worker<V, A>>,
) -> Vec<Worker<V, A>>
    requires few { length lines.now < 2 ^ 32 }
    requires ready { AllMayRun V.keeper A.behaviour shared.now lines.now workers.items }
    ensures run { AllHaveRun V.keeper A.behaviour shared.now lines.now workers.items result.items }
    ensures len { vec_len result ≡ vec_len workers }
    ensures capacity { vec_capacity result ≡ vec_capacity workers }
{
    let mut others = workers;
    let Some(last) = others.pop() else {
        return others;
    };
    let (last, mut others) = join(
        rt,
        move || -> Worker<V, A>
            requires { IsSync R.row × IsSync G.row × IsSend V.row × IsSend A.row
                × (length lines.now < 2 ^ 32)
                × MayRun V.keeper A.behaviour shared.now lines.now last }
            ensures { HasRun V.keeper A.behaviour shared.entry.now lines.entry.now last result }
        { last.run(rt, shared, gate, lines) },
        move || -> Vec<Worker<V, A>>
            requires { IsSync R.row × IsSync G.row × IsSend V.row × IsSend A.row
                × (length lines.now < 2 ^ 32)
                × AllMayRun V.keeper A.behaviour shared.now lines.now others.items }
            ensures { AllHaveRun V.keeper A.behaviour shared.entry.now lines.entry.now
                others.items result.items
                × (vec_len result ≡ vec_len others)
                × (vec_capacity result ≡ vec_capacity others) }
        { run_all(rt, shared, gate, lines, others) },
    );
    others.push_reserved(last);
    others
}
