//! Whether a source has a script, read as a run reads it.

ghost use Rattle.script.specs.declared.dialect.Dialect.TheVariants.{Whole};
ghost use Rattle.std.specs.Prelude.{◌≡◌, ◌⊎◌, List, ℕ};
ghost use Rattle.app_api.specs.Hosts.{HostsFit};
ghost use Rattle.script.specs.declared.line.Line.{Line};
ghost use Rattle.run_board.specs.Reading.{IsReadable, IsText, ReadsScript};
ghost use Rattle.teectl.specs.Checks.{HasScript, IsCheckStatus};

use app_api::{Application, Host};
use run_board::read_lines;
use script::Dialect;
use std::alloc::Global;
use tee_base::Source;
use tee_top::Status;

/// Reads the source to its end and says what a run of it would say before its first line: Done where it has a script, else which
/// line is the first outside the grammar, that it is too long, or that a read failed.
pub fn check_script<S: Source, A: Application>(
    alloc: Global,
    source: &mut S,
    hosts: &[Host<A>],
) -> Status
    requires { HostsFit hosts.now }
    ensures read { ReadsScript S.Source Whole hosts.now result source.old source.new }
    ensures script { result ≡ Status.Done → HasScript hosts.now (S.left source.old) }
    ensures each_script { (text : List ℕ) (script : List Line)
        → IsReadable (S.left source.old) text (S.failures source.old) (S.failures source.new)
        → IsText Whole hosts.now text script
        → (result ≡ Status.Done) ⊎ (result ≡ Status.NoMemory) }
    ensures few { IsCheckStatus result }
{
    match read_lines(alloc, source, hosts, Dialect::Whole) {
        Ok(lines) => {
            drop(lines);
            Status::Done
        }
        Err(status) => status,
    }
}
