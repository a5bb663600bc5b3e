//! Bytes that the parameters of a call bring in.

ghost use Rattle.std.specs.Prelude.{◌≡◌};
ghost use Rattle.app_kit.specs.Parameters.{bytes_in};

use app_api::Param;
use std::mem;
use tee_base::Bytes;

/// The bytes that a parameter brings in, if it brings some. Nothing is said of what is left of it.
pub fn take_bytes(param: &mut Param) -> Option<Bytes>
    ensures { result ≡ bytes_in param.old }
{
    match mem::replace(param, Param::Nothing) {
        Param::MemIn(bytes) => Some(bytes),
        other => {
            drop(other);
            None
        }
    }
}
