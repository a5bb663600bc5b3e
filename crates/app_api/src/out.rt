//! Outputs that an application's entry returns.

ghost use Rattle.std.specs.Prelude.{◌≡◌};
ghost use Rattle.app_api.specs.Outs.{no_outs};

use tee_base::Bytes;

/// What an entry gives for one parameter.
#[derive(Debug, Drop)]
pub enum Out {
    Nothing,
    Value(u32, u32),
    Mem(Bytes),
    /// The size that a memory output would need.
    Size(u32),
}

/// What an entry gives for the four parameters.
#[derive(Debug, Drop)]
pub struct Outs {
    pub p0: Out,
    pub p1: Out,
    pub p2: Out,
    pub p3: Out,
}

impl Outs {
    /// Four times nothing.
    pub fn nothing() -> Outs
        ensures { result ≡ no_outs }
    {
        Outs {
            p0: Out::Nothing,
            p1: Out::Nothing,
            p2: Out::Nothing,
            p3: Out::Nothing,
        }
    }
}
