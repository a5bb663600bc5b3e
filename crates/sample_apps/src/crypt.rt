//! The sample application Crypt: it sets up one cryptographic operation, and runs messages through it.

mod commands;
mod copies;
mod messages;
mod set_up;

use app_api::{Answer, Application, Ask, Entry, Given, Outs};
use commands::{Command, Plan, command_of};
use messages::joined_of;
use std::alloc::Global;
use std::{fmt, mem};
use tee_base::{Bytes, Code, NoMemory};

/// What the operation computes.
#[derive(Debug, Drop)]
pub enum Class {
    /// A cipher, with the vector that each message begins with.
    Cipher { iv: Bytes },
    /// Authenticated encryption, with the nonce that each message begins with.
    Ae { nonce: Bytes },
    /// A message authentication code.
    Mac,
    /// A digest.
    Digest,
}

/// The ask whose answer a command waits for, with what the command keeps meanwhile.
///
/// A key may be among it, so `Debug` writes nothing of what it holds.
#[derive(Drop)]
pub enum Waiting {
    /// No command waits.
    Nothing,
    /// 1: the operation of before goes.
    Freeing { plan: Plan },
    /// 1: a new operation.
    Allocating { plan: Plan },
    /// 1: an object for the key.
    MakingKey { key: Bytes, class: Class },
    /// 1: the object gets the key.
    FillingKey { object: u32, class: Class },
    /// 1: the operation gets the key.
    SettingKey { object: u32, class: Class },
    /// 1: the object goes.
    ClosingKey { class: Class },
    /// 1: a message begins.
    Beginning { class: Class },
    /// 2: a cipher takes in bytes, and gives some.
    Enciphering,
    /// 2: a code or a digest takes in bytes.
    Absorbing,
    /// 3: the message ends.
    Finishing,
    /// 3: the message ends with a tag. The two have so many bytes.
    Sealing { size: u32 },
    /// 3: the next message begins, after this came of the one before.
    Renewing { content: Bytes },
    /// 5: the message ends, and its tag is compared.
    Opening,
    /// 5: the next message begins, after this came of the one before.
    Reopening { content: Bytes },
    /// 4: the message ends, and its code is compared.
    Comparing,
    /// 4 and 5: the next message begins, after this was said of the one before.
    Judging { code: Code },
}

impl fmt::Debug for Waiting {
    fn fmt<W: fmt::Write>(&self, f: &mut fmt::Formatter<W>) -> fmt::Result {
        f.write_str("Waiting { .. }")
    }
}

/// The number of the operation, 0 where there is none; its class, where the last set-up succeeded; and what waits.
#[derive(Debug, Drop)]
pub struct Crypt {
    pub op: u32,
    pub class: Option<Class>,
    pub waiting: Waiting,
}

impl Crypt {
    ghost use Rattle.std.specs.Prelude.{◌≡◌, IfOk, OnErr};
    ghost use Rattle.app_kit.specs.Reactions.{ask_for, return_with, succeed_with, fail_with};
    ghost use Rattle.sample_apps.specs.CryptSetUp.{new_crypt, idle, wait_for, refusal_of};
    ghost use Rattle.sample_apps.specs.CryptMessages.{joined_of};
    ghost use Rattle.sample_apps.specs.Crypt as rows;

    /// No operation yet.
    pub fn new() -> Crypt
        ensures { result ≡ new_crypt }
    {
        Crypt {
            op: 0,
            class: None,
            waiting: Waiting::Nothing,
        }
    }

    fn set_class(&mut self, class: Option<Class>)
        ensures { self.new ≡ record self.old { class = class } }
    {
        let before = mem::replace(&mut self.class, class);
        drop(before);
    }

    fn set_waiting(&mut self, waiting: Waiting)
        ensures { self.new ≡ record self.old { waiting = waiting } }
    {
        let before = mem::replace(&mut self.waiting, waiting);
        drop(before);
    }

    /// The command asks, and waits for the answer.
    fn wait_for(&mut self, waiting: Waiting, ask: Ask) -> Ask
        ensures { ask_for self.new result ≡ wait_for self.old waiting ask }
    {
        self.set_waiting(waiting);
        ask
    }

    /// The entry returns.
    fn return_with(&mut self, code: Code, outs: Outs) -> Ask
        ensures { ask_for self.new result ≡ return_with (idle self.old) code outs }
    {
        self.set_waiting(Waiting::Nothing);
        Ask::Return { code, outs }
    }

    fn succeed(&mut self, outs: Outs) -> Ask
        ensures { ask_for self.new result ≡ succeed_with (idle self.old) outs }
    {
        self.return_with(Code::SUCCESS, outs)
    }

    /// The entry returns a code with nothing.
    fn fail(&mut self, code: Code) -> Ask
        ensures { ask_for self.new result ≡ fail_with (idle self.old) code }
    {
        self.return_with(code, Outs::nothing())
    }

    /// An answer that isn't the one hoped for.
    fn refuse(&mut self, answer: Answer) -> Ask
        ensures { ask_for self.new result ≡ refusal_of self.old answer }
    {
        match answer {
            Answer::Refused(code) => self.fail(code),
            other => {
                drop(other);
                self.fail(Code::GENERIC)
            }
        }
    }

    #[tactic(auto, unfolding(crate::specs::Crypt::reaction_to_command))]
    fn begin(&mut self, command: Command) -> Ask
        ensures { ask_for self.new result ≡ rows.reaction_to_command self.old command }
    {
        match command {
            Command::SetUp(plan) => self.set_up(plan),
            Command::Update { bytes, room } => self.update(bytes, room),
            Command::Finish { bytes, room } => self.finish(bytes, room),
            Command::Compare { bytes, mac } => self.compare(bytes, mac),
            Command::Open { bytes, tag, room } => self.open_last(bytes, tag, room),
        }
    }

    #[tactic(auto, unfolding(crate::specs::Crypt::reaction_to_invocation))]
    fn invoke(&mut self, command: Option<Command>) -> Ask
        ensures { ask_for self.new result ≡ rows.reaction_to_invocation self.old command }
    {
        match command {
            Some(command) => self.begin(command),
            None => self.fail(Code::BAD_PARAMETERS),
        }
    }

    /// An entry begins anew, whatever waited.
    #[tactic(auto, unfolding(crate::specs::Crypt::reaction_to_entry))]
    fn enter(&mut self, entry: Entry) -> Ask
        ensures { ask_for self.new result ≡ rows.reaction_to_entry self.old entry }
    {
        match entry {
            Entry::Create | Entry::Destroy | Entry::Start { .. } | Entry::Stop { .. } => {
                drop(entry);
                self.succeed(Outs::nothing())
            }
            Entry::Invoke {
                command,
                params,
                ..
            } => self.invoke(command_of(command, params)),
        }
    }

    /// The ask that begins a message, where it may come next.
    #[tactic(auto, unfolding(crate::specs::Crypt::beginning_while))]
    fn beginning(&self, alloc: Global) -> Result<Option<Ask>, NoMemory>
        ensures { IfOk result
            (λ ask. ask ≡ rows.beginning_while self.now.op self.now.class self.now.waiting) }
    {
        match (&self.waiting, &self.class) {
            (Waiting::ClosingKey { class }, _)
            | (Waiting::Finishing | Waiting::Sealing { .. } | Waiting::Opening, Some(class)) => {
                class.beginning(alloc, self.op)
            }
            _ => Ok(None),
        }
    }

    /// An answer comes to command 1, which waits for this. The beginning is the ask that begins a message. Nothing is said of
    /// what is left of the two.
    #[tactic(auto, unfolding(crate::specs::Crypt::set_up_while))]
    fn go_on_setting_up(
        &mut self,
        alloc: Global,
        waiting: &mut Waiting,
        beginning: &mut Option<Ask>,
        answer: Answer,
    ) -> Ask
        ensures { ask_for self.new result
            ≡ rows.set_up_while self.old waiting.old beginning.old answer }
    {
        match waiting {
            Waiting::Freeing { plan } => self.after_op_free(plan.take(alloc), answer),
            Waiting::Allocating { plan } => self.after_op_new(plan.take(alloc), answer),
            Waiting::MakingKey { key, class } => {
                let key = mem::replace(key, Bytes::empty(alloc));
                self.after_key_new(key, class.take(), answer)
            }
            Waiting::FillingKey { object, class } => {
                self.after_key_populate(*object, class.take(), answer)
            }
            Waiting::SettingKey { object, class } => {
                self.after_op_set_key(*object, class.take(), answer)
            }
            Waiting::ClosingKey { class } => {
                self.after_key_close(class.take(), beginning.take(), answer)
            }
            Waiting::Beginning { class } => self.after_first_beginning(class.take(), answer),
            _ => {
                drop(answer);
                self.fail(Code::GENERIC)
            }
        }
    }

    /// An answer comes to a command that waits for this, with the text and the tag that it has. Nothing is said of what is left
    /// of them and of the beginning.
    #[tactic(auto, unfolding(crate::specs::Crypt::reaction_while))]
    fn go_on(
        &mut self,
        alloc: Global,
        waiting: &mut Waiting,
        beginning: &mut Option<Ask>,
        joined: &mut Bytes,
        answer: Answer,
    ) -> Ask
        requires { joined.old ≡ joined_of answer }
        ensures { ask_for self.new result
            ≡ rows.reaction_while self.old waiting.old beginning.old answer }
    {
        match waiting {
            Waiting::Enciphering => self.after_cipher_update(answer),
            Waiting::Absorbing => self.after_absorption(alloc, answer),
            Waiting::Finishing => self.after_final(beginning.take(), answer),
            Waiting::Sealing { size } => {
                let bytes = mem::replace(joined, Bytes::empty(alloc));
                self.after_seal(beginning.take(), *size, bytes, answer)
            }
            Waiting::Opening => self.after_open(beginning.take(), answer),
            Waiting::Reopening { content } => {
                let content = mem::replace(content, Bytes::empty(alloc));
                self.after_opened_beginning(content, answer)
            }
            Waiting::Renewing { content } => {
                let content = mem::replace(content, Bytes::empty(alloc));
                self.after_next_beginning(content, answer)
            }
            Waiting::Comparing => self.after_mac_compare(answer),
            Waiting::Judging { code } => self.after_compared_beginning(*code, answer),
            _ => self.go_on_setting_up(alloc, waiting, beginning, answer),
        }
    }

    /// An answer comes to the command that waits. Nothing is said of what is left of the beginning.
    fn resume(
        &mut self,
        alloc: Global,
        beginning: &mut Option<Ask>,
        joined: &mut Bytes,
        answer: Answer,
    ) -> Ask
        requires { joined.old ≡ joined_of answer }
        ensures { ask_for self.new result
            ≡ rows.reaction_while (idle self.old) self.old.waiting beginning.old answer }
    {
        let mut waiting = mem::replace(&mut self.waiting, Waiting::Nothing);
        let ask = self.go_on(alloc, &mut waiting, beginning, joined, answer);
        drop(waiting);
        ask
    }

    /// An answer comes. On `Err` the state stays.
    fn answered(&mut self, alloc: Global, answer: Answer) -> Result<Ask, NoMemory>
        ensures ok { IfOk result (λ ask.
            ask_for self.new ask ≡ rows.reaction_to_answer self.old answer) }
        ensures err { OnErr result (self.new ≡ self.old) }
    {
        let mut beginning = match self.beginning(alloc) {
            Ok(beginning) => beginning,
            Err(want) => {
                drop(answer);
                return Err(want);
            }
        };
        let mut joined = match joined_of(alloc, &answer) {
            Ok(joined) => joined,
            Err(want) => {
                drop(beginning);
                drop(answer);
                return Err(want);
            }
        };
        let ask = self.resume(alloc, &mut beginning, &mut joined, answer);
        drop(beginning);
        drop(joined);
        Ok(ask)
    }
}

impl Application for Crypt {
    ghost use Rattle.sample_apps.specs.Crypt.{next_state, next_ask};

    ghost behaviour = { record { next = next_state; asks = next_ask } };

    #[tactic(auto, unfolding(crate::specs::Crypt::reaction))]
    fn step(&mut self, alloc: Global, given: Given) -> Result<Ask, NoMemory> {
        match given {
            Given::Entry(entry) => Ok(self.enter(entry)),
            Given::Answer(answer) => self.answered(alloc, answer),
        }
    }

    fn fresh(&self, alloc: Global) -> Result<Crypt, NoMemory> {
        Ok(Crypt {
            op: self.op,
            class: match &self.class {
                None => None,
                Some(class) => Some(class.copy(alloc)?),
            },
            waiting: self.waiting.copy(alloc)?,
        })
    }
}
