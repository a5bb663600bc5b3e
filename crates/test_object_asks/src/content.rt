//! Content for the rows that come to a limit.

ghost use Rattle.std.specs.Prelude.{◌≡◌, IfOk, replicate};

use std::alloc::Global;
use tee_base::{Bytes, NoMemory};

/// So many zeros.
///
/// # Errors
///
/// Where memory runs out.
pub fn zeros(alloc: Global, count: u32) -> Result<Bytes, NoMemory>
    ensures { IfOk result (λ bytes. bytes ≡ replicate count 0) }
{
    let mut bytes = Vec::new(alloc);
    bytes.resize(count as usize, 0u8)?;
    Ok(Bytes::from_vec(bytes))
}
