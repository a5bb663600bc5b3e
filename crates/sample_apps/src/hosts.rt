//! The hosts that carry the sample applications.

ghost use Rattle.std.specs.Prelude.{◌≡◌, ◌++◌, ◌∷◌, [], IfOk, OnOk};
ghost use Rattle.app_api.specs.Hosts.{HostsFit};
ghost use Rattle.sample_apps.specs.Samples as samples;

use crate::count::Count;
use crate::crypt::Crypt;
use crate::rogue::Rogue;
use crate::sample::Sample;
use crate::store::Store;
use app_api::{Host, Properties};
use std::alloc::Global;
use tee_base::{Bytes, NoMemory};
use uuid::Uuid;

/// One instance, which takes all sessions and stays.
const ALL_SET: Properties = Properties {
    single: true,
    multi: true,
    keep: true,
};
/// One instance, which takes one session.
const ONE_SESSION: Properties = Properties {
    single: true,
    multi: false,
    keep: false,
};
/// One instance, which takes all sessions and goes with the last.
const ONE_INSTANCE: Properties = Properties {
    single: true,
    multi: true,
    keep: false,
};
/// An instance for each session.
const MANY_INSTANCES: Properties = Properties {
    single: false,
    multi: false,
    keep: false,
};

/// Adds a host whose identifier has this last digit. Nothing is said of the hosts where there is no memory for it.
fn add(
    hosts: &mut Vec<Host<Sample>>,
    alloc: Global,
    name: &[u8],
    last: u8,
    properties: Properties,
    template: Sample,
) -> Result<(), NoMemory>
    ensures { OnOk result (hosts.new.items
        ≡ hosts.old.items ++ samples.host_of name.now last properties template ∷ []) }
{
    match Bytes::from_slice(alloc, name) {
        Ok(name) => {
            hosts.push(Host {
                name,
                id: Uuid::from_u128(0x0000_0000_0000_4000_8000_0000_0000_0000 + last as u128),
                properties,
                template,
            })?;
            Ok(())
        }
        Err(answer) => {
            drop(template);
            Err(answer)
        }
    }
}

fn add_vault(hosts: &mut Vec<Host<Sample>>, alloc: Global) -> Result<(), NoMemory>
    ensures { OnOk result (hosts.new.items ≡ hosts.old.items ++ samples.vault ∷ []) }
{
    add(
        hosts,
        alloc,
        b"vault",
        1,
        ONE_SESSION,
        Sample::Store(Store::Idle),
    )
}

fn add_twin(hosts: &mut Vec<Host<Sample>>, alloc: Global) -> Result<(), NoMemory>
    ensures { OnOk result (hosts.new.items ≡ hosts.old.items ++ samples.twin ∷ []) }
{
    add(
        hosts,
        alloc,
        b"twin",
        2,
        MANY_INSTANCES,
        Sample::Store(Store::Idle),
    )
}

fn add_keep(hosts: &mut Vec<Host<Sample>>, alloc: Global) -> Result<(), NoMemory>
    ensures { OnOk result (hosts.new.items ≡ hosts.old.items ++ samples.keep ∷ []) }
{
    add(
        hosts,
        alloc,
        b"keep",
        3,
        ALL_SET,
        Sample::Count(Count::new()),
    )
}

fn add_tally(hosts: &mut Vec<Host<Sample>>, alloc: Global) -> Result<(), NoMemory>
    ensures { OnOk result (hosts.new.items ≡ hosts.old.items ++ samples.tally ∷ []) }
{
    add(
        hosts,
        alloc,
        b"tally",
        4,
        ONE_INSTANCE,
        Sample::Count(Count::new()),
    )
}

fn add_cipher(hosts: &mut Vec<Host<Sample>>, alloc: Global) -> Result<(), NoMemory>
    ensures { OnOk result (hosts.new.items ≡ hosts.old.items ++ samples.cipher ∷ []) }
{
    add(
        hosts,
        alloc,
        b"cipher",
        5,
        MANY_INSTANCES,
        Sample::Crypt(Crypt::new()),
    )
}

fn add_rogue(hosts: &mut Vec<Host<Sample>>, alloc: Global) -> Result<(), NoMemory>
    ensures { OnOk result (hosts.new.items ≡ hosts.old.items ++ samples.rogue ∷ []) }
{
    add(
        hosts,
        alloc,
        b"rogue",
        6,
        ONE_INSTANCE,
        Sample::Rogue(Rogue::Idle),
    )
}

fn six(alloc: Global) -> Result<Vec<Host<Sample>>, NoMemory>
    ensures { IfOk result (λ hosts. hosts.items ≡ samples.hosts) }
{
    let mut hosts = Vec::new(alloc);
    add_vault(&mut hosts, alloc)?;
    add_twin(&mut hosts, alloc)?;
    add_keep(&mut hosts, alloc)?;
    add_tally(&mut hosts, alloc)?;
    add_cipher(&mut hosts, alloc)?;
    add_rogue(&mut hosts, alloc)?;
    Ok(hosts)
}

/// The six hosts, in the order of their indices.
pub fn sample_hosts(alloc: Global) -> Result<Vec<Host<Sample>>, NoMemory>
    ensures hosts { IfOk result (λ hosts. hosts.items ≡ samples.hosts) }
    ensures fit { IfOk result (λ hosts. HostsFit hosts.items) }
{
    six(alloc)
}
