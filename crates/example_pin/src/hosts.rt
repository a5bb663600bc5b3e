//! The host that carries Pin.

ghost use Rattle.std.specs.Prelude.{◌≡◌, ◌∷◌, [], IfOk};
ghost use Rattle.app_api.specs.Hosts.{HostsFit};
ghost use Rattle.example_pin.specs.PinHosts.{pin_host};

use crate::pin::Pin;
use app_api::{Host, Properties};
use std::alloc::Global;
use tee_base::{Bytes, NoMemory};
use uuid::Uuid;

/// The host `pin`, alone.
pub fn pin_hosts(alloc: Global) -> Result<Vec<Host<Pin>>, NoMemory>
    ensures hosts { IfOk result (λ made. made.items ≡ pin_host ∷ []) }
    ensures fit { IfOk result (λ made. HostsFit made.items) }
{
    let host = Host {
        name: Bytes::from_slice(alloc, b"pin")?,
        id: Uuid::from_u128(0x0000_0000_0000_4000_8000_0000_0000_0007),
        properties: Properties {
            single: true,
            multi: true,
            keep: false,
        },
        template: Pin::Idle,
    };
    Ok(Vec::from_array(alloc, [host])?)
}
