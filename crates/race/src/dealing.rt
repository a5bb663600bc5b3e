//! How the passes of all applications are dealt to the workers, and come back.

ghost use Rattle.std.specs.Prelude.{◌≡◌, ◌<◌, ◌≤◌, ◌*◌, ℕ, IfOk, [], Some, drop, length, slice_get, vec_capacity, vec_len};
ghost use Rattle.race.specs.Dealing.{AreDealt, AreIdle, StandInOrder};
ghost use Rattle.race.specs.Workers.{HaveAll};

use crate::worker::Worker;
use app_api::Application;
use shared_parts::CLIENTS;
use shared_tee::Pass;
use std::alloc::{AllocError, Global};
use store_api::Volume;

/// A worker for each client, with room for so many passes.
pub(crate) fn idle_workers<V: Volume, A: Application>(
    alloc: Global,
    apps: usize,
) -> Result<Vec<Worker<V, A>>, AllocError>
    ensures { IfOk result (λ workers. AreIdle apps workers.items) }
{
    let mut workers = Vec::new(alloc);
    for client in 0..CLIENTS as u8 {
        let passes = Vec::with_capacity(alloc, apps)?;
        workers.push(Worker {
            client,
            passes,
            ended: Ok(()),
        })?;
    }
    Ok(workers)
}

/// The first of some.
fn take_first<X>(items: &mut Vec<X>) -> X
    requires { 0 < vec_len items.old }
    ensures value { slice_get items.old.items 0 ≡ Some result }
    ensures rest { items.new.items ≡ drop 1 items.old.items }
    ensures capacity { vec_capacity items.new ≡ vec_capacity items.old }
{
    items.remove(0)
}

/// Gives each worker the passes of its client. The list of all is empty then.
pub(crate) fn deal<V: Volume, A: Application>(
    passes: &mut Vec<Pass<V, A>>,
    workers: &mut Vec<Worker<V, A>>,
)
    requires order { StandInOrder passes.old.items }
    requires idle { (count : ℕ) × (length passes.old.items ≡ 8 * count)
        × AreIdle count workers.old.items }
    ensures dealt { (count : ℕ) → length passes.old.items ≡ 8 * count
        → AreDealt count passes.old.items workers.new.items }
    ensures none { passes.new.items ≡ [] }
    ensures capacity { vec_capacity passes.new ≡ vec_capacity passes.old }
{
    while !passes.is_empty() {
        let pass = take_first(passes);
        let client = usize::from(pass.client());
        workers[client].passes.push_reserved(pass);
    }
}

/// Brings the passes of all workers back into their order.
pub(crate) fn gather<V: Volume, A: Application>(
    apps: usize,
    workers: &mut Vec<Worker<V, A>>,
    passes: &mut Vec<Pass<V, A>>,
)
    requires all { HaveAll apps workers.old.items }
    requires none { passes.old.items ≡ [] }
    requires room { 8 * apps ≤ vec_capacity passes.old }
    ensures { AreDealt apps passes.new.items workers.old.items }
{
    for _ in 0..apps {
        for client in 0..CLIENTS {
            passes.push_reserved(take_first(&mut workers[client].passes));
        }
    }
}
