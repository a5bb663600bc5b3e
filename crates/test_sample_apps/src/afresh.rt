//! What another value of an application's state asks for.

ghost use Rattle.std.specs.Prelude.{◌≡◌, IfOk};

use app_api::{Application, Ask, Given};
use std::alloc::Global;
use tee_base::NoMemory;

/// What another value of the state asks for when it is given this: what the application itself would ask for. The
/// application stays as it is.
///
/// # Errors
///
/// NoMemory.
pub fn asked_afresh<A: Application>(
    alloc: Global,
    application: &A,
    given: Given,
) -> Result<Ask, NoMemory>
    ensures { IfOk result (λ ask. ask ≡ A.behaviour.asks application.now given) }
{
    match application.fresh(alloc) {
        Ok(mut fresh) => {
            let asked = fresh.step(alloc, given);
            drop(fresh);
            asked
        }
        Err(NoMemory) => {
            drop(given);
            Err(NoMemory)
        }
    }
}
