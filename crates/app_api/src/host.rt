//! Hosts: an application with the name, the identifier and the properties that it goes by.

ghost use Rattle.std.specs.Prelude.{◌≡◌, ◌≢◌, ◌↔◌, ◌≤◌, IsTrue, All, length};
ghost use Rattle.app_api.specs.Hosts.{IsName, IsApart, HostsFit};

use crate::application::Application;
use tee_base::{Bytes, limits};
use uuid::Uuid;

/// How instances of an application are made (TEE Internal Core API 1.3, section 4.5).
#[derive(Clone, Copy, Debug, PartialEq, Eq)]
pub struct Properties {
    /// `gpd.ta.singleInstance`: all sessions go to one instance.
    pub single: bool,
    /// `gpd.ta.multiSession`: that one instance takes more than one session.
    pub multi: bool,
    /// `gpd.ta.instanceKeepAlive`: that one instance stays when it has no session left.
    pub keep: bool,
}

/// An application that the runtime hosts. Each of its instances begins as a fresh value of the template.
#[derive(Debug, Drop)]
pub struct Host<A> {
    pub name: Bytes,
    pub id: Uuid,
    pub properties: Properties,
    pub template: A,
}

/// Whether the bytes may name a host: 1 to 16 characters, a lower-case letter and then lower-case letters or digits,
/// and neither `board` nor `client`.
fn is_name(name: &[u8]) -> bool
    ensures { IsTrue result ↔ IsName name.now }
{
    if name.is_empty() || name.len() > 16 {
        return false;
    }
    if !name[0].is_ascii_lowercase() {
        return false;
    }
    if name == b"board".as_slice() {
        return false;
    }
    if name == b"client".as_slice() {
        return false;
    }
    name.iter()
        .all(|c| c.is_ascii_lowercase() || c.is_ascii_digit())
}

/// Whether two hosts differ in name and in identifier.
fn is_apart<A>(one: &Host<A>, other: &Host<A>) -> bool
    ensures { IsTrue result ↔ IsApart one.now other.now }
{
    one.name.as_slice() != other.name.as_slice() && one.id != other.id
}

/// Whether each of the earlier hosts differs from this one.
fn are_apart<A>(earlier: &[Host<A>], host: &Host<A>) -> bool
    ensures { IsTrue result ↔ All (λ other. IsApart other host.now) earlier.now }
{
    for other in earlier {
        if !is_apart(other, host) {
            return false;
        }
    }
    true
}

/// Whether these hosts can be run side by side: 1 to 16 of them, whose names may be names and differ, and whose
/// identifiers differ.
pub fn hosts_fit<A: Application>(hosts: &[Host<A>]) -> bool
    ensures { IsTrue result ↔ HostsFit hosts.now }
{
    if hosts.is_empty() || hosts.len() > limits::MAX_HOSTS {
        return false;
    }
    for (index, host) in hosts.iter().enumerate() {
        if !is_name(host.name.as_slice()) {
            return false;
        }
        if !are_apart(&hosts[..index], host) {
            return false;
        }
    }
    true
}
