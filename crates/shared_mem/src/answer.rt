//! Why a call on a block did nothing.

use tee_base::Code;
use thiserror::Error;

/// Why a call on a block did nothing. Each answer changes nothing.
#[derive(Clone, Copy, Debug, PartialEq, Eq, Error)]
pub enum BlockAnswer {
    /// It is refused with this code, whose origin is the client's own library.
    #[error("refused")]
    Refused(Code),
    #[error("out of memory")]
    NoMemory,
}
