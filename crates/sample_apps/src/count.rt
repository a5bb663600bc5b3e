//! The sample application Count: it keeps a number that commands add to, and how many sessions it has.

use app_api::{Application, Ask, Entry, Given, Out, Outs, Param, Params};
use app_kit::{Reaction, at_p0, at_p1};
use std::alloc::Global;
use tee_base::{Code, NoMemory};

/// The number, and the number of sessions.
#[derive(Clone, Copy, Debug)]
pub struct Count {
    pub number: u32,
    pub sessions: u32,
}

impl Count {
    ghost use Rattle.std.specs.Prelude.{◌≡◌};
    ghost use Rattle.sample_apps.specs.Count as rows;

    /// Nothing counted, and no session.
    pub fn new() -> Count
        ensures { result ≡ rows.new_count }
    {
        Count {
            number: 0,
            sessions: 0,
        }
    }

    /// A number is added where the sum fits.
    fn added(self, number: u32) -> Reaction<Count>
        ensures { result ≡ rows.after_add self number }
    {
        let Some(sum) = self.number.checked_add(number) else {
            return Reaction::fail_with(self, Code::OVERFLOW);
        };
        let count = Count {
            number: sum,
            sessions: self.sessions,
        };
        Reaction::succeed_with(count, at_p1(Out::Value(sum, self.sessions)))
    }

    #[tactic(auto, unfolding(crate::specs::Count::add))]
    fn add(self, params: &Params) -> Reaction<Count>
        ensures { result ≡ rows.add self params.now.p0 params.now.p1 params.now.p2 params.now.p3 }
    {
        match (&params.p0, &params.p1, &params.p2, &params.p3) {
            (Param::ValueIn(a, _), Param::ValueOut, Param::Nothing, Param::Nothing) => {
                self.added(*a)
            }
            _ => Reaction::fail_with(self, Code::BAD_PARAMETERS),
        }
    }

    #[tactic(auto, unfolding(crate::specs::Count::show))]
    fn show(self, params: &Params) -> Reaction<Count>
        ensures { result ≡ rows.show self params.now.p0 params.now.p1 params.now.p2 params.now.p3 }
    {
        match (&params.p0, &params.p1, &params.p2, &params.p3) {
            (Param::ValueOut, Param::Nothing, Param::Nothing, Param::Nothing) => {
                Reaction::succeed_with(self, at_p0(Out::Value(self.number, self.sessions)))
            }
            _ => Reaction::fail_with(self, Code::BAD_PARAMETERS),
        }
    }

    #[tactic(auto, unfolding(crate::specs::Count::command))]
    fn command(self, number: u32, params: &Params) -> Reaction<Count>
        ensures { result ≡ rows.command self number params.now }
    {
        match number {
            1 => self.add(params),
            2 => self.show(params),
            _ => Reaction::fail_with(self, Code::BAD_PARAMETERS),
        }
    }

    #[tactic(auto, unfolding(crate::specs::Count::after_entry))]
    fn entered(self, entry: Entry) -> Reaction<Count>
        ensures { result ≡ rows.after_entry self entry }
    {
        let mut count = self;
        match entry {
            Entry::Create | Entry::Destroy => drop(entry),
            Entry::Start { .. } => {
                drop(entry);
                count.sessions = self.sessions.saturating_add(1);
            }
            Entry::Stop { .. } => {
                drop(entry);
                count.sessions = self.sessions.saturating_sub(1);
            }
            Entry::Invoke {
                command,
                params,
                ..
            } => {
                let reaction = self.command(command, &params);
                drop(params);
                return reaction;
            }
        }
        Reaction::succeed_with(count, Outs::nothing())
    }
}

impl Application for Count {
    ghost use Rattle.sample_apps.specs.Count.{next_state, next_ask};

    ghost behaviour = { record { next = next_state; asks = next_ask } };

    #[tactic(auto, unfolding(crate::specs::Count::reaction))]
    fn step(&mut self, _alloc: Global, given: Given) -> Result<Ask, NoMemory> {
        let reaction = match given {
            Given::Entry(entry) => self.entered(entry),
            Given::Answer(_answer) => Reaction::fail_with(*self, Code::GENERIC),
        };
        *self = reaction.state;
        Ok(reaction.ask)
    }

    fn fresh(&self, _alloc: Global) -> Result<Count, NoMemory> {
        Ok(*self)
    }
}
