//! That no operation of a client is lost without a reply.
#![tactic(auto)]

ghost use Rattle.std.specs.Prelude.{ℕ, List};
ghost use Rattle.app_api.specs.declared.call.Call.{Call};
ghost use Rattle.app_api.specs.declared.host.Host.{Host};
ghost use Rattle.store_api.specs.Stores.{Store};
ghost use Rattle.alone.specs.Machine.{Machine, start};
ghost use Rattle.alone.specs.Runs.{machine_after};
ghost use Rattle.alone.specs.Step.{Event};
ghost use Rattle.reply_laws.specs.Replied.{IsNoRestart, RepliesOrWaits, RepliesToEach};

use app_api::Application;

/// Whatever happened before: at each event but the power's return, an operation that was unanswered is so still, or the event
/// replies to it. It does nothing.
pub fn every_operation_is_replied_to<A: Application>()
    ensures { (host : Host A) (index : ℕ) (seed : List ℕ) (store : Store) (events : List Event)
        (event : Event) → IsNoRestart event → RepliesToEach A.behaviour
        (machine_after A.behaviour (start host index seed store) events) event }
{}

/// Each call of a client, also one that is answered at once: its operation waits, or the call replies to it. It does nothing.
pub fn every_call_is_replied_to_or_waits<A: Application>()
    ensures { (m : Machine A) (client : ℕ) (call : Call)
        → RepliesOrWaits A.behaviour m client call }
{}
