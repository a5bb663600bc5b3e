//! What an application does with what it is given.

ghost use Rattle.std.specs.Prelude.{◌≡◌};
ghost use Rattle.app_kit.specs.Reactions as reactions;

use app_api::{Ask, Out, Outs};
use tee_base::Code;

/// The state afterwards, and what is asked for.
#[derive(Debug, Drop)]
pub struct Reaction<S> {
    pub state: S,
    pub ask: Ask,
}

impl<S> Reaction<S> {
    pub fn ask_for(state: S, ask: Ask) -> Reaction<S>
        ensures { result ≡ reactions.ask_for state ask }
    {
        Reaction { state, ask }
    }

    /// The entry returns.
    pub fn return_with(state: S, code: Code, outs: Outs) -> Reaction<S>
        ensures { result ≡ reactions.return_with state code outs }
    {
        Reaction {
            state,
            ask: Ask::Return { code, outs },
        }
    }

    pub fn succeed_with(state: S, outs: Outs) -> Reaction<S>
        ensures { result ≡ reactions.succeed_with state outs }
    {
        Reaction::return_with(state, Code::SUCCESS, outs)
    }

    /// The entry returns a code with nothing.
    pub fn fail_with(state: S, code: Code) -> Reaction<S>
        ensures { result ≡ reactions.fail_with state code }
    {
        Reaction::return_with(state, code, Outs::nothing())
    }
}

/// One output at the first place, and nothing else.
pub fn at_p0(out: Out) -> Outs
    ensures { result ≡ reactions.at_p0 out }
{
    let mut outs = Outs::nothing();
    outs.p0 = out;
    outs
}

/// One output at the second place, and nothing else.
pub fn at_p1(out: Out) -> Outs
    ensures { result ≡ reactions.at_p1 out }
{
    let mut outs = Outs::nothing();
    outs.p1 = out;
    outs
}

/// One output at the third place, and nothing else.
pub fn at_p2(out: Out) -> Outs
    ensures { result ≡ reactions.at_p2 out }
{
    let mut outs = Outs::nothing();
    outs.p2 = out;
    outs
}

/// One output at the fourth place, and nothing else.
pub fn at_p3(out: Out) -> Outs
    ensures { result ≡ reactions.at_p3 out }
{
    let mut outs = Outs::nothing();
    outs.p3 = out;
    outs
}
