//! The commands of Crypt, by their numbers and the kinds of their parameters.

ghost use Rattle.std.specs.Prelude.{◌≡◌};
ghost use Rattle.sample_apps.specs.CryptCommands as rows;

use app_api::{Param, Params};
use app_kit::take_bytes;
use tee_base::Bytes;

/// What an operation is set up with.
#[derive(Debug, Drop)]
pub struct Plan {
    pub alg: u32,
    pub mode: u32,
    pub key: Bytes,
    pub iv: Bytes,
}

/// A command, with what its parameters bring.
#[derive(Drop)]
pub enum Command {
    /// 1: sets up an operation.
    SetUp(Plan),
    /// 2: the next bytes of the message, and room for what comes of them.
    Update { bytes: Bytes, room: u32 },
    /// 3: the last bytes of the message, and room for what comes of them.
    Finish { bytes: Bytes, room: u32 },
    /// 4: the last bytes of the message, and the code that it may have.
    Compare { bytes: Bytes, mac: Bytes },
    /// 5: the last bytes of a ciphertext, the tag that it may have, and room for what comes of them.
    Open { bytes: Bytes, tag: Bytes, room: u32 },
}

#[tactic(auto, unfolding(crate::specs::CryptCommands::set_up_of))]
fn set_up_of(params: &mut Params) -> Option<Command>
    ensures { result ≡ rows.set_up_of params.old.p0 params.old.p1 params.old.p2 params.old.p3 }
{
    match *params {
        Params {
            p0: Param::MemIn(_),
            p1: Param::ValueIn(alg, mode),
            p2: Param::MemIn(_),
            p3: Param::Nothing,
        } => {
            let key = take_bytes(&mut params.p0)?;
            let iv = take_bytes(&mut params.p2)?;
            Some(Command::SetUp(Plan { alg, mode, key, iv }))
        }
        _ => None,
    }
}

#[tactic(auto, unfolding(crate::specs::CryptCommands::update_of))]
fn update_of(params: &mut Params) -> Option<Command>
    ensures { result ≡ rows.update_of params.old.p0 params.old.p1 params.old.p2 params.old.p3 }
{
    match *params {
        Params {
            p0: Param::MemIn(_),
            p1: Param::MemOut(room),
            p2: Param::Nothing,
            p3: Param::Nothing,
        } => {
            let bytes = take_bytes(&mut params.p0)?;
            Some(Command::Update { bytes, room })
        }
        _ => None,
    }
}

#[tactic(auto, unfolding(crate::specs::CryptCommands::finish_of))]
fn finish_of(params: &mut Params) -> Option<Command>
    ensures { result ≡ rows.finish_of params.old.p0 params.old.p1 params.old.p2 params.old.p3 }
{
    match *params {
        Params {
            p0: Param::MemIn(_),
            p1: Param::MemOut(room),
            p2: Param::Nothing,
            p3: Param::Nothing,
        } => {
            let bytes = take_bytes(&mut params.p0)?;
            Some(Command::Finish { bytes, room })
        }
        _ => None,
    }
}

#[tactic(auto, unfolding(crate::specs::CryptCommands::compare_of))]
fn compare_of(params: &mut Params) -> Option<Command>
    ensures { result ≡ rows.compare_of params.old.p0 params.old.p1 params.old.p2 params.old.p3 }
{
    match *params {
        Params {
            p0: Param::MemIn(_),
            p1: Param::MemIn(_),
            p2: Param::Nothing,
            p3: Param::Nothing,
        } => {
            let bytes = take_bytes(&mut params.p0)?;
            let mac = take_bytes(&mut params.p1)?;
            Some(Command::Compare { bytes, mac })
        }
        _ => None,
    }
}

#[tactic(auto, unfolding(crate::specs::CryptCommands::open_of))]
fn open_of(params: &mut Params) -> Option<Command>
    ensures { result ≡ rows.open_of params.old.p0 params.old.p1 params.old.p2 params.old.p3 }
{
    match *params {
        Params {
            p0: Param::MemIn(_),
            p1: Param::MemIn(_),
            p2: Param::MemOut(room),
            p3: Param::Nothing,
        } => {
            let bytes = take_bytes(&mut params.p0)?;
            let tag = take_bytes(&mut params.p1)?;
            Some(Command::Open { bytes, tag, room })
        }
        _ => None,
    }
}

/// The command of a number, or none: the number is unknown, or the parameters are of other kinds.
#[tactic(auto, unfolding(crate::specs::CryptCommands::command_of))]
pub fn command_of(number: u32, params: Params) -> Option<Command>
    ensures { result ≡ rows.command_of number params }
{
    let mut params = params;
    let command = match number {
        1 => set_up_of(&mut params),
        2 => update_of(&mut params),
        3 => finish_of(&mut params),
        4 => compare_of(&mut params),
        5 => open_of(&mut params),
        _ => None,
    };
    drop(params);
    command
}
