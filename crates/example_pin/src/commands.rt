//! The commands of Pin: what each asks for first.

ghost use Rattle.std.specs.Prelude.{◌≡◌, ◌∷◌, IfOk, codes};
ghost use Rattle.example_pin.specs.PinCommands as rows;

use crate::pin::{MAX_PIN_BYTES, Pin, TRIES};
use app_api::{Ask, Param, Params};
use app_kit::Reaction;
use std::alloc::Global;
use tee_base::{Bytes, Code, NoMemory};

/// The number of private storage (TEE Internal Core API 1.3, section 5.3).
const PRIVATE_STORAGE: u32 = 1;

/// The flags of the object: it is read and written, and nobody has it beside.
const READ_WRITE: u32 = 0x3;

/// The identifier of the object.
fn identifier(alloc: Global) -> Result<Bytes, NoMemory>
    ensures { IfOk result (λ id. id ≡ codes "pin") }
{
    Bytes::from_slice(alloc, b"pin")
}

/// What the object holds: the tries that are left, and then the PIN.
fn content_of(alloc: Global, tries: u8, pin: &Bytes) -> Result<Bytes, NoMemory>
    ensures { IfOk result (λ content. content ≡ tries ∷ pin.now) }
{
    let mut content = vec![in alloc; tries]?;
    content.extend_from_slice(pin.as_slice())?;
    Ok(Bytes::from_vec(content))
}

/// Whether the bytes may be a PIN.
fn may_be_pin(bytes: &Bytes) -> bool
    ensures { result ≡ rows.may_be_pin bytes.now }
{
    bytes.len() > 0 && bytes.len() <= MAX_PIN_BYTES
}

/// 1: a new object with all tries and the PIN.
fn set_pin(alloc: Global, pin: &Bytes) -> Result<Reaction<Pin>, NoMemory>
    ensures { IfOk result (λ reaction. reaction ≡ rows.set_pin pin.now) }
{
    if !may_be_pin(pin) {
        return Ok(Reaction::fail_with(Pin::Idle, Code::BAD_PARAMETERS));
    }
    let id = identifier(alloc)?;
    let content = content_of(alloc, TRIES, pin)?;
    let ask = Ask::ObjCreate {
        storage: PRIVATE_STORAGE,
        id,
        flags: READ_WRITE,
        attr: 0,
        content,
    };
    Ok(Reaction::ask_for(Pin::Setting, ask))
}

/// 2: the object, for a guess.
fn try_pin(alloc: Global, guess: &Bytes) -> Result<Reaction<Pin>, NoMemory>
    ensures { IfOk result (λ reaction. reaction ≡ rows.try_pin guess.now) }
{
    let guess = guess.copy(alloc)?;
    let ask = Ask::ObjOpen {
        storage: PRIVATE_STORAGE,
        id: identifier(alloc)?,
        flags: READ_WRITE,
    };
    Ok(Reaction::ask_for(Pin::Opening(guess), ask))
}

/// The command of this number.
fn command_with(alloc: Global, number: u32, bytes: &Bytes) -> Result<Reaction<Pin>, NoMemory>
    ensures { IfOk result (λ reaction. reaction ≡ rows.command_with number bytes.now) }
{
    match number {
        1 => set_pin(alloc, bytes),
        2 => try_pin(alloc, bytes),
        _ => Ok(Reaction::fail_with(Pin::Idle, Code::BAD_PARAMETERS)),
    }
}

/// A command begins: both take bytes and show a value.
#[tactic(auto, unfolding(crate::specs::PinCommands::begin))]
pub fn begin(alloc: Global, number: u32, params: &Params) -> Result<Reaction<Pin>, NoMemory>
    ensures { IfOk result (λ reaction. reaction
        ≡ rows.begin number params.now.p0 params.now.p1 params.now.p2 params.now.p3) }
{
    match (&params.p0, &params.p1, &params.p2, &params.p3) {
        (Param::MemIn(bytes), Param::ValueOut, Param::Nothing, Param::Nothing) => {
            command_with(alloc, number, bytes)
        }
        _ => Ok(Reaction::fail_with(Pin::Idle, Code::BAD_PARAMETERS)),
    }
}
