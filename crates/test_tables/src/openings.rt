//! A whole opening: a client is admitted, and its session is entered.

ghost use Rattle.std.specs.Prelude.{◌≡◌, IfOk, OnErr};
ghost use Rattle.instances.specs.Instances.{admission_of, with_session};

use app_api::Login;
use instances::{Admission, Instances, Refusal};

/// Admits a client's session under a label, and enters it with this login where it is admitted.
///
/// # Errors
///
/// As `admit` refuses. Nothing changes then.
pub fn open_as(
    instances: &mut Instances,
    client: u8,
    label: u32,
    login: &Login,
) -> Result<Admission, Refusal>
    ensures answer { result ≡ admission_of instances.old client label }
    ensures entered { IfOk result
        (λ admission. instances.new ≡ with_session instances.old client label login.now admission) }
    ensures unchanged { OnErr result (instances.new ≡ instances.old) }
{
    let admission = instances.admit(client, label)?;
    instances.enter(client, label, login, admission);
    Ok(admission)
}

/// The same for a client that doesn't say who it is.
///
/// # Errors
///
/// As `admit` refuses. Nothing changes then.
pub fn open(instances: &mut Instances, client: u8, label: u32) -> Result<Admission, Refusal>
    ensures answer { result ≡ admission_of instances.old client label }
    ensures unchanged { OnErr result (instances.new ≡ instances.old) }
{
    open_as(instances, client, label, &Login::Public)
}
