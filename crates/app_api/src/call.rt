//! What a client asks for.

use crate::login::Login;
use crate::param::Params;
use crate::reference::References;
use tee_base::Bytes;

/// A client's call (TEE Client API 1.0, sections 4.5.3 to 4.5.7). A label is the client's own name for a session, and the
/// number of a block its own name for shared memory. `TEEC_RequestCancellation` is none of them: it names an operation by its
/// number, and is never queued.
#[derive(Debug, Drop)]
pub enum Call {
    /// `TEEC_OpenSession`.
    Open {
        label: u32,
        login: Login,
        params: Params,
    },
    /// `TEEC_InvokeCommand`.
    Invoke {
        label: u32,
        command: u32,
        params: Params,
    },
    /// `TEEC_CloseSession`.
    Close {
        label: u32,
    },
    /// `TEEC_AllocateSharedMemory`: a block of zeros, with memory flags 1 for input, 2 for output, 3 for both.
    Share {
        block: u32,
        flags: u32,
        size: u32,
    },
    /// The client writes into a block of its own, from a place on.
    Fill {
        block: u32,
        at: u32,
        bytes: Bytes,
    },
    /// The client reads a block of its own.
    Show {
        block: u32,
    },
    /// `TEEC_ReleaseSharedMemory`.
    Unshare {
        block: u32,
    },
}

impl Call {
    ghost use Rattle.std.specs.Prelude.{◌≡◌};
    ghost use Rattle.app_api.specs.Calls.{call_references, is_memory_call};

    /// Whether it is about shared memory. Such a call is answered at once.
    pub fn is_about_memory(&self) -> bool
        ensures { result ≡ is_memory_call self.now }
    {
        matches!(
            self,
            Call::Share { .. } | Call::Fill { .. } | Call::Show { .. } | Call::Unshare { .. }
        )
    }

    /// The references of its parameters.
    pub fn references(&self) -> References
        ensures { result ≡ call_references self.now }
    {
        match self {
            Call::Open { params, .. } | Call::Invoke { params, .. } => params.references(),
            _ => References::none(),
        }
    }
}
