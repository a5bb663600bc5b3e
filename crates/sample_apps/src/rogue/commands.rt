//! The commands of Rogue, by their numbers and the kinds of their parameters.

ghost use Rattle.std.specs.Prelude.{◌≡◌};
ghost use Rattle.sample_apps.specs.Rogue as rows;

use app_api::{Param, Params};

/// A command, with what its parameters bring.
#[derive(Clone, Copy)]
pub enum Command {
    /// 1: a panic.
    Panic { code: u32 },
    /// 2: closes a handle that there can't be.
    CloseUnknown,
    /// 3: asks for the cancellation flag for ever.
    Loop,
    /// 4: makes objects until there is no space.
    Fill,
    /// 5: says that an output needs more room.
    TellSize,
    /// 6: makes an object anew.
    Replace,
    /// 7: makes keys until it is refused one.
    MakeKeys,
}

#[tactic(auto, unfolding(crate::specs::Rogue::panic_of))]
fn panic_of(params: &Params) -> Option<Command>
    ensures { result ≡ rows.panic_of params.now.p0 params.now.p1 params.now.p2 params.now.p3 }
{
    match (&params.p0, &params.p1, &params.p2, &params.p3) {
        (Param::ValueIn(code, _), Param::Nothing, Param::Nothing, Param::Nothing) => {
            Some(Command::Panic { code: *code })
        }
        _ => None,
    }
}

/// A command that has no parameters.
#[tactic(auto, unfolding(crate::specs::Rogue::without_parameters))]
fn without_parameters(command: Command, params: &Params) -> Option<Command>
    ensures { result ≡ rows.without_parameters command params.now.p0 params.now.p1 params.now.p2
        params.now.p3 }
{
    match (&params.p0, &params.p1, &params.p2, &params.p3) {
        (Param::Nothing, Param::Nothing, Param::Nothing, Param::Nothing) => Some(command),
        _ => None,
    }
}

/// A command that has an output for a number.
#[tactic(auto, unfolding(crate::specs::Rogue::with_number))]
fn with_number(command: Command, params: &Params) -> Option<Command>
    ensures { result ≡ rows.with_number command params.now.p0 params.now.p1 params.now.p2
        params.now.p3 }
{
    match (&params.p0, &params.p1, &params.p2, &params.p3) {
        (Param::ValueOut, Param::Nothing, Param::Nothing, Param::Nothing) => Some(command),
        _ => None,
    }
}

#[tactic(auto, unfolding(crate::specs::Rogue::tell_size_of))]
fn tell_size_of(params: &Params) -> Option<Command>
    ensures { result ≡ rows.tell_size_of params.now.p0 params.now.p1 params.now.p2 params.now.p3 }
{
    match (&params.p0, &params.p1, &params.p2, &params.p3) {
        (Param::MemOut(_), Param::Nothing, Param::Nothing, Param::Nothing) => {
            Some(Command::TellSize)
        }
        _ => None,
    }
}

/// The command of a number, or none: the number is unknown, or the parameters are of other kinds.
#[tactic(auto, unfolding(crate::specs::Rogue::command_of))]
pub fn command_of(number: u32, params: &Params) -> Option<Command>
    ensures { result ≡ rows.command_of number params.now }
{
    match number {
        1 => panic_of(params),
        2 => without_parameters(Command::CloseUnknown, params),
        3 => without_parameters(Command::Loop, params),
        4 => with_number(Command::Fill, params),
        5 => tell_size_of(params),
        6 => without_parameters(Command::Replace, params),
        7 => with_number(Command::MakeKeys, params),
        _ => None,
    }
}
