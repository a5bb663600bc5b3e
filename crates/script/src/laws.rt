//! What follows of the grammar alone, and of reading what was printed.

ghost use Rattle.std.specs.Prelude.{◌≡◌, ◌⊎◌, ◌++◌, List, ℕ, [], Ok, codes, length};
ghost use Rattle.app_api.specs.Hosts.{HostsFit};
ghost use Rattle.app_api.specs.declared.host.Host.{Host};
ghost use Rattle.script.specs.Canonical.{canonical};
ghost use Rattle.script.specs.Grammar.{FirstBad, Reads};
ghost use Rattle.script.specs.Scripts.{Answers};
ghost use Rattle.script.specs.Workload.{workload_of};
ghost use Rattle.script.specs.declared.dialect.Dialect.{Dialect};
ghost use Rattle.script.specs.declared.dialect.Dialect.TheVariants.{Whole};
ghost use Rattle.script.specs.declared.line.Line.{Line};

use crate::canonical::print;
use crate::script::{Script, ScriptAnswer, parse};
use app_api::{Application, Host};
use std::alloc::Global;

/// Each text reads to one script, or has one first line outside the grammar or the dialect, and never both. It does nothing.
pub fn one_reading<A: Application>()
    ensures script { (dialect : Dialect) (hosts : List (Host A)) (text : List ℕ)
        (a b : List Line) → HostsFit hosts
        → Reads dialect hosts text a → Reads dialect hosts text b → a ≡ b }
    ensures line { (dialect : Dialect) (hosts : List (Host A)) (text : List ℕ)
        (m n : ℕ) → HostsFit hosts
        → FirstBad dialect hosts text m → FirstBad dialect hosts text n → m ≡ n }
    ensures not_both { (dialect : Dialect) (hosts : List (Host A)) (text : List ℕ)
        (script : List Line) (n : ℕ) → HostsFit hosts
        → Reads dialect hosts text script → FirstBad dialect hosts text n → ⊥ }
    ensures either { (dialect : Dialect) (hosts : List (Host A)) (text : List ℕ) → HostsFit hosts
        → ((script : List Line) × Reads dialect hosts text script)
        ⊎ ((n : ℕ) × FirstBad dialect hosts text n) }
{}

/// Where a text reads, each front of it that ends at a line end reads to a front of its lines. It does nothing.
pub fn fronts_are_read<A: Application>()
    ensures { (dialect : Dialect) (hosts : List (Host A)) (front rest : List ℕ)
        (script : List Line)
        → (front ≡ []) ⊎ ((lines : List ℕ) × (front ≡ lines ++ codes "\n"))
        → Reads dialect hosts (front ++ rest) script
        → (some more : List Line) × Reads dialect hosts front some × (script ≡ some ++ more) }
{}

/// The canonical text of a workload reads to it, for hosts that fit. It does nothing.
pub fn workloads_are_read<A: Application>()
    ensures { (hosts : List (Host A)) (number : ℕ) → HostsFit hosts
        → Reads Whole hosts (canonical hosts (workload_of number (length hosts)))
        (workload_of number (length hosts)) }
{}

/// Prints a script that some text reads to, and reads what was printed: that is the same script, unless memory runs out.
pub fn print_reads_back<A: Application>(
    alloc: Global,
    script: &Script,
    hosts: &[Host<A>],
) -> Result<Script, ScriptAnswer>
    requires fit { HostsFit hosts.now }
    requires read { (text : List ℕ) × Reads Whole hosts.now text script.now }
    ensures { Answers result (Ok script.now) }
{
    let Ok(text) = print(alloc, script, hosts) else {
        return Err(ScriptAnswer::NoMemory);
    };
    parse(alloc, text.as_slice(), hosts)
}
