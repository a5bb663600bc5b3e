//! What the numbers in the text of a log are.

ghost use Rattle.std.specs.Prelude.{◌≡◌, List, ℕ};
ghost use Rattle.app_api.specs.declared.host.Host.{Host};
ghost use Rattle.store_api.specs.Stores.{Store};
ghost use Rattle.alone.specs.Logs.{Logged, machine_by};
ghost use Rattle.alone.specs.Machine.{start};
ghost use Rattle.report.specs.LogTexts.{op_behind};

use app_api::Application;

/// The number that the text of a log gives to a call is that of its operation: the next one of the machine that the entries before
/// it lead to. It does nothing.
pub fn calls_have_the_numbers_of_operations<A: Application>()
    ensures { (host : Host A) (index : ℕ) (seed : List ℕ) (store : Store) (before : List Logged)
        → (machine_by A.behaviour (start host index seed store) before).queue.next
        ≡ op_behind before }
{}
