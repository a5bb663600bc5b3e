//! The application: a machine, with what the entry that runs needs.

use crate::answering::answer;
use crate::asking::ask_of;
use crate::entering::{EntryCall, EntryKind, Layout, begin};
use crate::places::{Places, found_places};
use crate::room::Room;
use crate::slots::Slots;
use app_api::{Answer, Application, Ask, Entry, Given, Outs, Params};
use rv32::{Halt, Machine, Memory};
use std::alloc::Global;
use tee_base::{Code, NoMemory, limits};
use thiserror::Error;

/// The instructions of one step.
pub const BUDGET: u32 = 1_000_000;

/// The bytes that the memory may have.
pub const MAX_MEMORY_BYTES: usize = 0x10_0000;

/// The memory has more bytes than it may.
#[derive(Clone, Copy, Debug, PartialEq, Eq, Error)]
#[error("the memory is larger than 1 MiB")]
pub struct TooMuchMemory;

/// What the machine waits for.
#[derive(Clone, Copy, Debug, PartialEq, Eq)]
pub enum Phase {
    /// An entry, or the answer to what it asked.
    Asks,
    /// To go on: it has used up the budget of a step.
    Yields,
}

/// An application that is a program of the machine.
#[derive(Debug, Drop)]
pub struct CApp {
    pub machine: Machine,
    pub layout: Layout,
    pub slots: Slots,
    pub phase: Phase,
}

impl CApp {
    ghost use Rattle.std.specs.Prelude.{◌≡◌, ◌≤◌, ◌↔◌, IsOk, IfOk, IfSome, length};
    ghost use Rattle.tee_base.specs.declared.limits.TheConstants.{MAX_ASK_BYTES};
    ghost use Rattle.c_app.specs.Entering.{AreSmall};
    ghost use Rattle.c_app.specs.Rooms.{IsRoom};
    ghost use Rattle.c_app.specs.Steps as steps;
    ghost use Rattle.c_app.specs.declared.app.TheConstants.{MAX_MEMORY_BYTES};

    /// An application over a memory, in which its image lies. It takes no memory.
    pub fn new(memory: Vec<u8>, layout: Layout) -> Result<CApp, TooMuchMemory>
        // The memory has 1 MiB at most.
        ensures fits { IsOk result ↔ (length memory.items ≤ MAX_MEMORY_BYTES) }
        // It is the memory that is given, before the first entry.
        ensures state { IfOk result (λ app. app ≡ steps.at_rest memory.items layout) }
    {
        if memory.len() > MAX_MEMORY_BYTES {
            return Err(TooMuchMemory);
        }
        Ok(CApp {
            machine: Machine {
                registers: [0; 32],
                pc: layout.start,
                memory: Memory::from_vec(memory),
            },
            layout,
            slots: Slots::nothing(),
            phase: Phase::Asks,
        })
    }

    fn panic() -> Ask
        // The panic of the instance.
        ensures { result ≡ steps.panic }
    {
        Ask::Panic {
            code: Code::GENERIC,
        }
    }

    fn ask_or_panic(ask: Option<Ask>) -> Ask
        // What is no ask is a panic.
        ensures { result ≡ steps.ask_or_panic ask }
    {
        match ask {
            Some(ask) => ask,
            None => CApp::panic(),
        }
    }

    /// What is asked for where the machine stopped so.
    #[tactic(auto, unfolding(crate::specs::Steps::asked_at))]
    fn asked_at(&self, stop: Halt, room: Room) -> Ask
        // Six empty vectors that have the room.
        requires { IsRoom MAX_ASK_BYTES room }
        // What the registers and the memory say, a yield, or a panic.
        ensures { result ≡ steps.asked_at stop self.now }
    {
        match stop {
            Halt::Call => {
                let ask = ask_of(&self.machine, self.layout.block, self.slots, room);
                CApp::ask_or_panic(ask)
            }
            Halt::Budget => Ask::CancelFlag,
            _ => CApp::panic(),
        }
    }

    #[tactic(auto, unfolding(crate::specs::Steps::phase_at))]
    fn phase_at(stop: Halt) -> Phase
        // A machine that used up its budget yields.
        ensures { result ≡ steps.phase_at stop }
    {
        match stop {
            Halt::Budget => Phase::Yields,
            _ => Phase::Asks,
        }
    }

    /// The machine runs to its next ask.
    #[tactic(auto, unfolding(crate::specs::Steps::ran))]
    fn run(&mut self, room: Room) -> Ask
        // Six empty vectors that have the room.
        requires { IsRoom MAX_ASK_BYTES room }
        // The machine is where it stopped.
        ensures state { self.new ≡ (steps.ran self.old).state }
        // What it asks for there.
        ensures ask { result ≡ (steps.ran self.old).ask }
    {
        let stop = self.machine.run(BUDGET);
        self.phase = CApp::phase_at(stop);
        self.asked_at(stop, room)
    }

    /// An entry whose parameters have these places, or none.
    fn enter_at(
        &mut self,
        call: EntryCall,
        params: &Params,
        places: Option<Places>,
        room: Room,
    ) -> Ask
        // Six empty vectors that have the room.
        requires room { IsRoom MAX_ASK_BYTES room }
        // Sizes and addresses fit their types.
        requires small { IfSome places (AreSmall params.now) }
        // The machine ran from its first instruction on, or stays.
        ensures state { self.new ≡ (steps.entered_at self.old call params.now places).state }
        // What it asks for, or the end of the entry.
        ensures ask { result ≡ (steps.entered_at self.old call params.now places).ask }
    {
        match places {
            Some(places) => {
                self.slots = begin(&mut self.machine, call, self.layout, params, places);
                self.run(room)
            }
            None => Ask::Return {
                code: Code::OUT_OF_MEMORY,
                outs: Outs::nothing(),
            },
        }
    }

    /// An entry, where its parameters have their place.
    fn enter(&mut self, call: EntryCall, params: &Params, room: Room) -> Ask
        // Six empty vectors that have the room.
        requires { IsRoom MAX_ASK_BYTES room }
        // The machine ran from its first instruction on, or stays.
        ensures state { self.new ≡ (steps.entered self.old call params.now).state }
        // What it asks for, or the end of the entry.
        ensures ask { result ≡ (steps.entered self.old call params.now).ask }
    {
        let places = found_places(&self.machine.memory, self.layout.block, params);
        self.enter_at(call, params, places, room)
    }

    /// An entry without a command and parameters.
    fn enter_alone(&mut self, kind: EntryKind, session: u8, room: Room) -> Ask
        // Six empty vectors that have the room.
        requires { IsRoom MAX_ASK_BYTES room }
        // The machine ran from its first instruction on, or stays.
        ensures state { self.new ≡ (steps.entered_alone self.old kind session).state }
        // What it asks for, or the end of the entry.
        ensures ask { result ≡ (steps.entered_alone self.old kind session).ask }
    {
        let params = Params::nothing();
        let call = EntryCall {
            kind,
            session,
            command: 0,
        };
        self.enter(call, &params, room)
    }

    #[tactic(auto, unfolding(crate::specs::Steps::after_entry))]
    fn take_entry(&mut self, entry: Entry, room: Room) -> Ask
        // Six empty vectors that have the room.
        requires { IsRoom MAX_ASK_BYTES room }
        // The machine ran from its first instruction on, or stays.
        ensures state { self.new ≡ (steps.after_entry entry self.old).state }
        // What it asks for, or the end of the entry.
        ensures ask { result ≡ (steps.after_entry entry self.old).ask }
    {
        match entry {
            Entry::Create => self.enter_alone(EntryKind::Create, 0, room),
            Entry::Destroy => self.enter_alone(EntryKind::Destroy, 0, room),
            Entry::Start { session, params } => {
                let call = EntryCall {
                    kind: EntryKind::Start,
                    session,
                    command: 0,
                };
                self.enter(call, &params, room)
            }
            Entry::Stop { session } => self.enter_alone(EntryKind::Stop, session, room),
            Entry::Invoke {
                session,
                command,
                params,
            } => {
                let call = EntryCall {
                    kind: EntryKind::Invoke,
                    session,
                    command,
                };
                self.enter(call, &params, room)
            }
        }
    }

    /// The machine goes on where the bytes of the answer lie in memory.
    fn go_on(&mut self, lies: bool, room: Room) -> Ask
        // Six empty vectors that have the room.
        requires { IsRoom MAX_ASK_BYTES room }
        // The machine ran on, or stays.
        ensures state { self.new ≡ (steps.after_delivery self.old lies).state }
        // What it asks for, or a panic.
        ensures ask { result ≡ (steps.after_delivery self.old lies).ask }
    {
        if lies { self.run(room) } else { CApp::panic() }
    }

    #[tactic(auto, unfolding(crate::specs::Steps::after_answer))]
    fn take_answer(&mut self, given: Answer, room: Room) -> Ask
        // Six empty vectors that have the room.
        requires { IsRoom MAX_ASK_BYTES room }
        // The machine has the answer, or goes on without it after a yield.
        ensures state { self.new ≡ (steps.after_answer self.old.phase self.old given).state }
        // What it asks for next.
        ensures ask { result ≡ (steps.after_answer self.old.phase self.old given).ask }
    {
        match self.phase {
            Phase::Yields => {
                drop(given);
                self.run(room)
            }
            Phase::Asks => {
                let lies = answer(&mut self.machine, given);
                self.go_on(lies, room)
            }
        }
    }
}

impl Application for CApp {
    ghost use Rattle.c_app.specs.Steps.{next_state, next_ask};

    ghost behaviour = { record { next = next_state; asks = next_ask } };

    #[tactic(auto, unfolding(crate::specs::Steps::moved))]
    fn step(&mut self, alloc: Global, given: Given) -> Result<Ask, NoMemory> {
        let Ok(room) = Room::new(alloc, limits::MAX_ASK_BYTES as usize) else {
            drop(given);
            return Err(NoMemory);
        };
        let ask = match given {
            Given::Entry(entry) => self.take_entry(entry, room),
            Given::Answer(answer) => self.take_answer(answer, room),
        };
        Ok(ask)
    }

    fn fresh(&self, alloc: Global) -> Result<CApp, NoMemory> {
        Ok(CApp {
            machine: Machine {
                registers: self.machine.registers,
                pc: self.machine.pc,
                memory: self.machine.memory.copy(alloc)?,
            },
            layout: self.layout,
            slots: self.slots,
            phase: self.phase,
        })
    }
}
