//! The sample application Rogue, which misbehaves: it panics, misuses asks, never returns, and uses up its space and its
//! handles.

mod commands;

use app_api::{Answer, Application, Ask, Entry, Given, Out, Outs};
use app_kit::{Reaction, at_p0};
use commands::{Command, command_of};
use std::alloc::Global;
use tee_base::{Bytes, Code, NoMemory, keys, limits};

/// A handle that no instance has, since it has at most 16.
const UNKNOWN_HANDLE: u32 = 99;
/// The size that an output of memory is said to need.
const SIZE_TOLD: u32 = 1_000;
/// Private storage (TEE Internal Core API 1.3, section 5.4).
const PRIVATE_STORAGE: u32 = 1;
/// Flags of a new object: access for reading and writing.
const READ_WRITE: u32 = 0x3;
/// Flags of a new object: access for reading, writing and changes of the object, which takes the place of one that is there.
const EXCLUSIVE_OVERWRITE: u32 = 0x407;
/// The identifier of the object that is made anew.
const REPLACED_IDENTIFIER: u8 = 0x68;
/// The greatest size of a key that is made, in bits.
const KEY_BITS: u32 = 256;

/// The ask whose answer a command waits for, with what the command keeps meanwhile.
#[derive(Clone, Copy, Debug)]
pub enum Rogue {
    /// No command waits.
    Idle,
    /// 2: a handle that there can't be is closed.
    ClosingUnknown,
    /// 3: the cancellation flag.
    Looping,
    /// 4: the object of this identifier.
    Creating { identifier: u8 },
    /// 4: the handle on the object of this identifier is closed.
    Closing { identifier: u8 },
    /// 6: the object that is made anew.
    Replacing,
    /// 7: one key more than so many.
    MakingKeys { made: u32 },
}

impl Rogue {
    ghost use Rattle.std.specs.Prelude.{◌≡◌, IfOk};
    ghost use Rattle.sample_apps.specs.Rogue as rows;

    /// An answer that isn't the one hoped for.
    fn refuse(answer: Answer) -> Reaction<Rogue>
        ensures { result ≡ rows.refusal_of answer }
    {
        match answer {
            Answer::Refused(code) => Reaction::fail_with(Rogue::Idle, code),
            _ => Reaction::fail_with(Rogue::Idle, Code::GENERIC),
        }
    }

    /// The ask for an object of a one-byte identifier in private storage, empty and without attributes.
    fn creation(alloc: Global, identifier: u8, flags: u32) -> Result<Ask, NoMemory>
        ensures { IfOk result (λ ask. ask ≡ rows.creation_of identifier flags) }
    {
        Ok(Ask::ObjCreate {
            storage: PRIVATE_STORAGE,
            id: Bytes::from_slice(alloc, &[identifier])?,
            flags,
            attr: 0,
            content: Bytes::empty(alloc),
        })
    }

    /// The object of this identifier.
    fn create(alloc: Global, identifier: u8) -> Result<Reaction<Rogue>, NoMemory>
        ensures { IfOk result (λ reaction. reaction ≡ rows.creation_at identifier) }
    {
        let ask = Rogue::creation(alloc, identifier, READ_WRITE)?;
        Ok(Reaction::ask_for(Rogue::Creating { identifier }, ask))
    }

    /// How many objects were made.
    fn show(count: u32) -> Reaction<Rogue>
        ensures { result ≡ rows.count_shown count }
    {
        Reaction::succeed_with(Rogue::Idle, at_p0(Out::Value(count, 0)))
    }

    /// One key more than so many.
    fn make_key(made: u32) -> Reaction<Rogue>
        ensures { result ≡ rows.key_wanted made }
    {
        Reaction::ask_for(
            Rogue::MakingKeys { made },
            Ask::KeyNew {
                kind: keys::KIND_AES,
                max_bits: KEY_BITS,
            },
        )
    }

    #[tactic(auto, unfolding(crate::specs::Rogue::reaction_to_command))]
    fn begin(alloc: Global, command: Command) -> Result<Reaction<Rogue>, NoMemory>
        ensures { IfOk result (λ reaction. reaction ≡ rows.reaction_to_command command) }
    {
        Ok(match command {
            Command::Panic { code } => {
                Reaction::ask_for(Rogue::Idle, Ask::Panic { code: Code(code) })
            }
            Command::CloseUnknown => Reaction::ask_for(
                Rogue::ClosingUnknown,
                Ask::ObjClose {
                    object: UNKNOWN_HANDLE,
                },
            ),
            Command::Loop => Reaction::ask_for(Rogue::Looping, Ask::CancelFlag),
            Command::Fill => Rogue::create(alloc, 0)?,
            Command::TellSize => Reaction::return_with(
                Rogue::Idle,
                Code::SHORT_BUFFER,
                at_p0(Out::Size(SIZE_TOLD)),
            ),
            Command::Replace => {
                let ask = Rogue::creation(alloc, REPLACED_IDENTIFIER, EXCLUSIVE_OVERWRITE)?;
                Reaction::ask_for(Rogue::Replacing, ask)
            }
            Command::MakeKeys => Rogue::make_key(0),
        })
    }

    #[tactic(auto, unfolding(crate::specs::Rogue::reaction_to_invocation))]
    fn invoke(alloc: Global, command: Option<Command>) -> Result<Reaction<Rogue>, NoMemory>
        ensures { IfOk result (λ reaction. reaction ≡ rows.reaction_to_invocation command) }
    {
        match command {
            Some(command) => Rogue::begin(alloc, command),
            None => Ok(Reaction::fail_with(Rogue::Idle, Code::BAD_PARAMETERS)),
        }
    }

    /// An entry begins anew, whatever waited.
    #[tactic(auto, unfolding(crate::specs::Rogue::reaction_to_entry))]
    fn enter(alloc: Global, entry: Entry) -> Result<Reaction<Rogue>, NoMemory>
        ensures { IfOk result (λ reaction. reaction ≡ rows.reaction_to_entry entry) }
    {
        match entry {
            Entry::Create | Entry::Destroy | Entry::Start { .. } | Entry::Stop { .. } => {
                drop(entry);
                Ok(Reaction::succeed_with(Rogue::Idle, Outs::nothing()))
            }
            Entry::Invoke {
                command,
                params,
                ..
            } => {
                let command = command_of(command, &params);
                drop(params);
                Rogue::invoke(alloc, command)
            }
        }
    }

    #[tactic(auto, unfolding(crate::specs::Rogue::after_unknown_close))]
    fn after_unknown_close(answer: Answer) -> Reaction<Rogue>
        ensures { result ≡ rows.after_unknown_close answer }
    {
        match answer {
            Answer::Done => Reaction::succeed_with(Rogue::Idle, Outs::nothing()),
            other => Rogue::refuse(other),
        }
    }

    #[tactic(auto, unfolding(crate::specs::Rogue::after_flag))]
    fn after_flag(answer: Answer) -> Reaction<Rogue>
        ensures { result ≡ rows.after_flag answer }
    {
        match answer {
            Answer::Truth(_) => Reaction::ask_for(Rogue::Looping, Ask::CancelFlag),
            other => Rogue::refuse(other),
        }
    }

    #[tactic(auto, unfolding(crate::specs::Rogue::after_creation))]
    fn after_creation(identifier: u8, answer: Answer) -> Reaction<Rogue>
        ensures { result ≡ rows.after_creation identifier answer }
    {
        match answer {
            Answer::Number(object) => {
                Reaction::ask_for(Rogue::Closing { identifier }, Ask::ObjClose { object })
            }
            Answer::Refused(code) => {
                if code.0 == Code::STORAGE_NO_SPACE.0 {
                    Rogue::show(identifier as u32)
                } else {
                    Reaction::fail_with(Rogue::Idle, code)
                }
            }
            _ => Reaction::fail_with(Rogue::Idle, Code::GENERIC),
        }
    }

    #[tactic(auto, unfolding(crate::specs::Rogue::after_close))]
    fn after_close(
        alloc: Global,
        identifier: u8,
        answer: Answer,
    ) -> Result<Reaction<Rogue>, NoMemory>
        ensures { IfOk result (λ reaction. reaction ≡ rows.after_close identifier answer) }
    {
        match answer {
            Answer::Done => {
                if identifier < u8::MAX {
                    Rogue::create(alloc, identifier + 1)
                } else {
                    Ok(Rogue::show(256))
                }
            }
            other => Ok(Rogue::refuse(other)),
        }
    }

    #[tactic(auto, unfolding(crate::specs::Rogue::after_replacement))]
    fn after_replacement(answer: Answer) -> Reaction<Rogue>
        ensures { result ≡ rows.after_replacement answer }
    {
        match answer {
            Answer::Number(_) => Reaction::succeed_with(Rogue::Idle, Outs::nothing()),
            other => Rogue::refuse(other),
        }
    }

    /// A key that is made is kept, and the next is asked for.
    #[tactic(auto, unfolding(crate::specs::Rogue::after_key))]
    fn after_key(made: u32, answer: Answer) -> Reaction<Rogue>
        ensures { result ≡ rows.after_key made answer }
    {
        match answer {
            Answer::Number(_) => {
                if made < limits::MAX_ASKS {
                    Rogue::make_key(made + 1)
                } else {
                    Reaction::fail_with(Rogue::Idle, Code::GENERIC)
                }
            }
            Answer::Refused(code) => {
                Reaction::succeed_with(Rogue::Idle, at_p0(Out::Value(made, code.0)))
            }
            _ => Reaction::fail_with(Rogue::Idle, Code::GENERIC),
        }
    }

    /// An answer comes to the command that waits.
    #[tactic(auto, unfolding(crate::specs::Rogue::reaction_to_answer))]
    fn go_on(self, alloc: Global, answer: Answer) -> Result<Reaction<Rogue>, NoMemory>
        ensures { IfOk result (λ reaction. reaction ≡ rows.reaction_to_answer self answer) }
    {
        match self {
            Rogue::Idle => Ok(Reaction::fail_with(Rogue::Idle, Code::GENERIC)),
            Rogue::ClosingUnknown => Ok(Rogue::after_unknown_close(answer)),
            Rogue::Looping => Ok(Rogue::after_flag(answer)),
            Rogue::Creating { identifier } => Ok(Rogue::after_creation(identifier, answer)),
            Rogue::Closing { identifier } => Rogue::after_close(alloc, identifier, answer),
            Rogue::Replacing => Ok(Rogue::after_replacement(answer)),
            Rogue::MakingKeys { made } => Ok(Rogue::after_key(made, answer)),
        }
    }
}

impl Application for Rogue {
    ghost use Rattle.sample_apps.specs.Rogue.{next_state, next_ask};

    ghost behaviour = { record { next = next_state; asks = next_ask } };

    #[tactic(auto, unfolding(crate::specs::Rogue::reaction))]
    fn step(&mut self, alloc: Global, given: Given) -> Result<Ask, NoMemory> {
        let reaction = match given {
            Given::Entry(entry) => Rogue::enter(alloc, entry)?,
            Given::Answer(answer) => self.go_on(alloc, answer)?,
        };
        *self = reaction.state;
        Ok(reaction.ask)
    }

    fn fresh(&self, _alloc: Global) -> Result<Rogue, NoMemory> {
        Ok(*self)
    }
}
