//! What the return of an entry does.

ghost use Rattle.std.specs.Prelude.{◌≡◌, ℕ, ◌<◌, [], OnErr, OnOk, true, Some, Option, option_map, find};
ghost use Rattle.alone.specs.declared.active_entry.Instance.{Instance};
ghost use Rattle.alone.specs.Machine.{is_number, with_instance};
ghost use Rattle.alone.specs.Step.{after_session, after_answer, after_destroy_begins, is_success, masked_again, reply_of, after_return, after_start, start_begun};
ghost use Rattle.alone.specs.Blocks.{delivered_for, given_params, served_by};
ghost use Rattle.alone.specs.InList.{IsPlace};
ghost use Rattle.app_side.specs.Represents.{machine_of, IsTurned};

use crate::side::AppSide;
use alone::{
    ActiveEntry, Ending, EntryPoint, Instance, Outputs, Replies, Reply, deliver, deliver_to_blocks,
    destroy_entry, give_params, start_entry,
};
use app_api::{Application, Params};
use instances::SessionState;
use std::mem;
use tee_base::{Code, NoMemory, Origin};

/// A reply that the application itself gives.
fn own_reply(op: u64, code: Code, outputs: Outputs) -> Reply
    ensures { result ≡ reply_of op code Origin.App outputs }
{
    Reply {
        op,
        code,
        origin: Origin::App,
        outputs,
    }
}

/// The same, where there is an operation.
fn reply_to(op: Option<u64>, code: Code, outputs: Outputs) -> Option<Reply>
    ensures { result ≡ option_map (λ n. reply_of n code Origin.App outputs) op }
{
    match op {
        None => {
            drop(outputs);
            None
        }
        Some(op) => Some(own_reply(op, code, outputs)),
    }
}

/// What the instance runs from now on.
pub(crate) fn set_running<A>(instance: &mut Instance<A>, running: Option<ActiveEntry>)
    ensures { instance.new ≡ record instance.old { running = running } }
{
    let before = mem::replace(&mut instance.running, running);
    drop(before);
}

fn is_success(code: Code) -> bool
    ensures { result ≡ is_success code }
{
    code.0 == Code::SUCCESS.0
}

impl<A: Application> AppSide<A> {
    /// The entry ends: its operation is answered, where it has one, and its instance runs nothing any more.
    fn answer(
        &mut self,
        place: usize,
        number: u8,
        op: Option<u64>,
        code: Code,
        outputs: Outputs,
        replies: &mut Replies,
    )
        requires place { IsPlace number self.old.instances.items place }
        requires none { replies.old ≡ [] }
        ensures { (inst : Instance A) → find (is_number number) self.old.instances.items ≡ Some inst
            → IsTurned self.new replies.new
            (after_answer (machine_of self.old) inst op code outputs) }
    {
        set_running(&mut self.instances[place], None);
        match op {
            None => drop(outputs),
            Some(op) => {
                self.queue.answer(op);
                replies.push(own_reply(op, code, outputs));
            }
        }
    }

    /// Cancellation is masked again, for a further entry of the operation.
    fn mask_again(&mut self, op: Option<u64>)
        ensures { self.new ≡ record self.old { queue = masked_again self.old.queue op } }
    {
        if let Some(op) = op {
            let _ = self.queue.mask(op);
        }
    }

    /// The destroy entry of the instance begins, with the reply that is given when it has returned.
    pub(crate) fn destroy(
        &mut self,
        place: usize,
        number: u8,
        op: Option<u64>,
        reply: Option<Reply>,
    )
        requires { IsPlace number self.old.instances.items place }
        ensures { (inst : Instance A) → find (is_number number) self.old.instances.items ≡ Some inst
            → machine_of self.new ≡ after_destroy_begins (machine_of self.old) inst op reply }
    {
        self.mask_again(op);
        self.sessions.begin_destroy(number);
        set_running(&mut self.instances[place], Some(destroy_entry(op, reply)));
    }

    /// A session of the instance has gone: where it is left without one and isn't kept alive, Destroy runs before the reply.
    fn after_session(
        &mut self,
        place: usize,
        number: u8,
        op: Option<u64>,
        code: Code,
        outputs: Outputs,
        replies: &mut Replies,
    )
        requires place { IsPlace number self.old.instances.items place }
        requires none { replies.old ≡ [] }
        ensures { (inst : Instance A) → find (is_number number) self.old.instances.items ≡ Some inst
            → IsTurned self.new replies.new
            (after_session (machine_of self.old) inst op code outputs) }
    {
        if self.sessions.is_left(number) {
            self.destroy(place, number, op, reply_to(op, code, outputs));
            return;
        }
        self.answer(place, number, op, code, outputs, replies);
    }

    /// What is shown of an entry's outputs is written into the blocks that the call of its operation refers to. It takes no
    /// memory.
    fn deliver_to_blocks(&mut self, op: Option<u64>, outputs: &Outputs)
        ensures { self.new ≡ record self.old {
          blocks = delivered_for (served_by self.old.queue op) outputs.now self.old.blocks;
        } }
    {
        let Some(op) = op else {
            return;
        };
        if let Some(facts) = self.queue.facts(op) {
            deliver_to_blocks(&mut self.blocks, facts.client, facts.references, outputs);
        }
    }

    /// The start entry of the operation begins, behind a create entry that succeeded, with what its references are now. Want of
    /// memory changes nothing.
    fn start(
        &mut self,
        place: usize,
        number: u8,
        op: Option<u64>,
        session: u8,
        client: u8,
        mut params: Params,
    ) -> Result<(), NoMemory>
        requires { IsPlace number self.old.instances.items place }
        ensures ok { OnOk result ((inst : Instance A)
            → find (is_number number) self.old.instances.items ≡ Some inst
            → machine_of self.new
            ≡ with_instance
            (record (machine_of self.old) { queue = masked_again self.old.queue op })
            (record inst {
              created = true;
              running = Some
                  (start_begun op session (given_params self.old.blocks client params));
            })) }
        ensures err { OnErr result (self.new ≡ self.old) }
    {
        give_params(&self.blocks, client, &mut params)?;
        let running = start_entry(self.alloc, op, session, params)?;
        self.mask_again(op);
        let current = &mut self.instances[place];
        current.created = true;
        set_running(current, Some(running));
        Ok(())
    }

    /// A start entry returned: its session is open and the operation answered, or the session is gone.
    fn end_start(
        &mut self,
        place: usize,
        number: u8,
        op: Option<u64>,
        session: u8,
        code: Code,
        outputs: Outputs,
        replies: &mut Replies,
    )
        requires place { IsPlace number self.old.instances.items place }
        requires none { replies.old ≡ [] }
        ensures { (inst : Instance A) → find (is_number number) self.old.instances.items ≡ Some inst
            → IsTurned self.new replies.new
            (after_start (machine_of self.old) inst op session code outputs) }
    {
        if is_success(code) {
            self.sessions.set(session, SessionState::Open);
            self.answer(place, number, op, code, outputs, replies);
            return;
        }
        self.sessions.remove(session);
        self.after_session(place, number, op, code, outputs, replies);
    }

    /// The entry returns. Want of memory, for what the references of an open are, changes nothing.
    pub(crate) fn end_entry(
        &mut self,
        place: usize,
        number: u8,
        op: Option<u64>,
        stage: EntryPoint,
        ending: Ending,
        replies: &mut Replies,
    ) -> Result<(), NoMemory>
        requires place { IsPlace number self.old.instances.items place }
        requires none { replies.old ≡ [] }
        ensures ok { OnOk result ((inst : Instance A)
            → find (is_number number) self.old.instances.items ≡ Some inst
            → inst.number ≡ number
            → IsTurned self.new replies.new
            (after_return (machine_of self.old) inst op stage ending.code ending.outs)) }
        ensures err { OnErr result ((self.new ≡ self.old) × (replies.new ≡ [])) }
    {
        let Ending { code, outs } = ending;
        match stage {
            EntryPoint::Create {
                session,
                client,
                params,
            } => {
                drop(outs);
                if is_success(code) {
                    return self.start(place, number, op, session, client, params);
                }
                drop(params);
                self.tear_down(number, code, Origin::App, replies);
            }
            EntryPoint::Start { session, places } => {
                let outputs = deliver(self.alloc, places, outs);
                self.deliver_to_blocks(op, &outputs);
                self.end_start(place, number, op, session, code, outputs, replies);
            }
            EntryPoint::Invoke { places, .. } => {
                let outputs = deliver(self.alloc, places, outs);
                self.deliver_to_blocks(op, &outputs);
                self.answer(place, number, op, code, outputs, replies);
            }
            EntryPoint::Stop { session } => {
                drop(outs);
                self.sessions.remove(session);
                let outputs = Outputs::nothing();
                self.after_session(place, number, op, Code::SUCCESS, outputs, replies);
            }
            EntryPoint::Destroy { reply } => {
                drop(outs);
                self.end_instance(number);
                if let Some(reply) = reply {
                    replies.push(reply);
                }
            }
        }
        Ok(())
    }
}
