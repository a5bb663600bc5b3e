//! Copies of calls: what is lent is copied before anything changes.

ghost use Rattle.std.specs.Prelude.{◌≡◌, IfOk};

use app_api::{Call, Params};
use std::alloc::Global;
use tee_base::NoMemory;

/// Another four of the same parameters.
pub fn copy_params(alloc: Global, params: &Params) -> Result<Params, NoMemory>
    ensures { IfOk result (λ copy. copy ≡ params.now) }
{
    Ok(Params {
        p0: params.p0.copy(alloc)?,
        p1: params.p1.copy(alloc)?,
        p2: params.p2.copy(alloc)?,
        p3: params.p3.copy(alloc)?,
    })
}

/// Another of the same call.
pub fn copy_call(alloc: Global, call: &Call) -> Result<Call, NoMemory>
    ensures { IfOk result (λ copy. copy ≡ call.now) }
{
    Ok(match call {
        Call::Open {
            label,
            login,
            params,
        } => Call::Open {
            label: *label,
            login: *login,
            params: copy_params(alloc, params)?,
        },
        Call::Invoke {
            label,
            command,
            params,
        } => Call::Invoke {
            label: *label,
            command: *command,
            params: copy_params(alloc, params)?,
        },
        Call::Close { label } => Call::Close { label: *label },
        Call::Share { block, flags, size } => Call::Share {
            block: *block,
            flags: *flags,
            size: *size,
        },
        Call::Fill { block, at, bytes } => Call::Fill {
            block: *block,
            at: *at,
            bytes: bytes.copy(alloc)?,
        },
        Call::Show { block } => Call::Show { block: *block },
        Call::Unshare { block } => Call::Unshare { block: *block },
    })
}
