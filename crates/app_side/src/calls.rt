//! Clients' calls.

ghost use Rattle.tee_base.specs.declared.limits.TheConstants.{MAX_CLIENTS, MAX_NUMBER};
ghost use Rattle.std.specs.Prelude.{◌≡◌, ◌<◌, ◌^◌, ◌++◌, [], ◌∷◌, IfOk, OnOk, OnErr, Ok, true, false, not, ◌&&◌};
ghost use Rattle.instances.specs.Instances.{admission_of};
ghost use Rattle.op_queue.specs.Queue.{is_full, is_close_call};
ghost use Rattle.alone.specs.Step.{answered_at_once, after_call, called_open, called_invoke, closed_in, facts_of_label, new_instance, opened_as, after_queueing};
ghost use Rattle.app_side.specs.Represents.{called_of, machine_of, IsCalled};

use crate::side::{AppSide, AtOnce, Taken};
use alone::{Call, Instance, references_refusal};
use app_api::{Application, Login, Params};
use instances::{Admission, SessionState};
use op_queue::QueueAnswer;
use std::alloc::Global;
use tee_base::{Code, NoMemory, Origin};

/// An instance of this number behind the others, which has run no entry. Want of memory leaves them.
fn add_instance<A: Application>(
    alloc: Global,
    template: &A,
    instances: &mut Vec<Instance<A>>,
    number: u8,
) -> Result<(), NoMemory>
    ensures ok { OnOk result (instances.new.items
        ≡ instances.old.items ++ new_instance template.now number ∷ []) }
    ensures err { OnErr result (instances.new.items ≡ instances.old.items) }
{
    let state = template.fresh(alloc)?;
    instances.push(Instance {
        number,
        state,
        created: false,
        running: None,
    })?;
    Ok(())
}

impl<A: Application> AppSide<A> {
    /// A call that is answered at once.
    pub(crate) fn answer_at_once(&mut self, code: Code, origin: Origin) -> Taken
        requires { self.old.queue.next < MAX_NUMBER }
        ensures { IsCalled self.new (called_of result) self.old.queue.next
            (answered_at_once (machine_of self.old) code origin) }
    {
        Taken {
            op: self.queue.skip(),
            instance: 0,
            answer: Some(AtOnce {
                code,
                origin,
                shown: None,
            }),
        }
    }

    /// A call that waits for the instance.
    fn wait_for(
        &mut self,
        client: u8,
        instance: u8,
        session: u8,
        call: Call,
    ) -> Result<Taken, NoMemory>
        requires room { self.old.queue.next < MAX_NUMBER }
        requires accepted { (is_full self.old.queue && not (is_close_call call)) ≡ false }
        ensures ok { IfOk result (λ waiting.
            IsCalled self.new (called_of waiting) self.old.queue.next
            (after_queueing (machine_of self.old) client instance session call)) }
        ensures err { OnErr result (self.new ≡ self.old) }
    {
        match self.queue.submit(client, instance, session, call) {
            Ok(op) => Ok(Taken {
                op,
                instance,
                answer: None,
            }),
            Err(QueueAnswer::Full) => unreachable!(),
            Err(QueueAnswer::NoMemory) => Err(NoMemory),
        }
    }

    /// An open that was admitted to an instance that exists.
    fn enter_shared(
        &mut self,
        client: u8,
        label: u32,
        login: &Login,
        params: Params,
        admission: Admission,
    ) -> Result<Taken, NoMemory>
        requires room { self.old.queue.next < MAX_NUMBER }
        requires accepted { is_full self.old.queue ≡ false }
        requires admitted { admission_of self.old.sessions client label ≡ Ok admission }
        requires shared { admission.new_instance ≡ false }
        ensures ok { IfOk result (λ waiting.
            IsCalled self.new (called_of waiting) self.old.queue.next
            (opened_as (machine_of self.old) client label login.now params (Ok admission))) }
        ensures err { OnErr result (machine_of self.new ≡ machine_of self.old) }
    {
        let call = Call::Open {
            label,
            login: *login,
            params,
        };
        let waiting = self.wait_for(client, admission.instance, admission.session, call)?;
        self.sessions.enter(client, label, login, admission);
        Ok(waiting)
    }

    /// An open that was admitted to an instance of its own, which is made here.
    fn enter_new(
        &mut self,
        client: u8,
        label: u32,
        login: &Login,
        params: Params,
        admission: Admission,
    ) -> Result<Taken, NoMemory>
        requires room { self.old.queue.next < MAX_NUMBER }
        requires accepted { is_full self.old.queue ≡ false }
        requires admitted { admission_of self.old.sessions client label ≡ Ok admission }
        requires own { admission.new_instance ≡ true }
        ensures ok { IfOk result (λ waiting.
            IsCalled self.new (called_of waiting) self.old.queue.next
            (opened_as (machine_of self.old) client label login.now params (Ok admission))) }
        ensures err { OnErr result (machine_of self.new ≡ machine_of self.old) }
    {
        let number = admission.instance;
        if let Err(want) = add_instance(self.alloc, &self.template, &mut self.instances, number) {
            drop(params);
            return Err(want);
        }
        let call = Call::Open {
            label,
            login: *login,
            params,
        };
        match self.wait_for(client, admission.instance, admission.session, call) {
            Ok(waiting) => {
                self.sessions.enter(client, label, login, admission);
                Ok(waiting)
            }
            Err(answer) => {
                drop(self.instances.pop());
                Err(answer)
            }
        }
    }

    /// An open that is refused for want of a session or an instance, or that is admitted.
    fn enter(
        &mut self,
        client: u8,
        label: u32,
        login: &Login,
        params: Params,
    ) -> Result<Taken, NoMemory>
        requires room { self.old.queue.next < MAX_NUMBER }
        requires accepted { is_full self.old.queue ≡ false }
        ensures ok { IfOk result (λ waiting.
            IsCalled self.new (called_of waiting) self.old.queue.next
            (opened_as (machine_of self.old) client label login.now params
            (admission_of self.old.sessions client label))) }
        ensures err { OnErr result (machine_of self.new ≡ machine_of self.old) }
    {
        match self.sessions.admit(client, label) {
            Ok(admission) if admission.new_instance => self.enter_new(
                client, label, login, params, admission,
            ),
            Ok(admission) => self.enter_shared(client, label, login, params, admission),
            Err(refusal) => {
                drop(params);
                Ok(self.answer_at_once(refusal.code, refusal.origin))
            }
        }
    }

    fn open(
        &mut self,
        client: u8,
        label: u32,
        login: &Login,
        params: Params,
    ) -> Result<Taken, NoMemory>
        requires { self.old.queue.next < MAX_NUMBER }
        ensures ok { IfOk result (λ waiting.
            IsCalled self.new (called_of waiting) self.old.queue.next
            (called_open (machine_of self.old) client label login.now params)) }
        ensures err { OnErr result (machine_of self.new ≡ machine_of self.old) }
    {
        if params.check().is_err() {
            drop(params);
            return Ok(self.answer_at_once(Code::BAD_PARAMETERS, Origin::Api));
        }
        if let Some(code) = references_refusal(&self.blocks, client, &params) {
            drop(params);
            return Ok(self.answer_at_once(code, Origin::Api));
        }
        if self.sessions.find(client, label).is_some() {
            drop(params);
            return Ok(self.answer_at_once(Code::BAD_STATE, Origin::Api));
        }
        if self.queue.is_full() {
            drop(params);
            return Ok(self.answer_at_once(Code::BUSY, Origin::Tee));
        }
        self.enter(client, label, login, params)
    }

    fn invoke(
        &mut self,
        client: u8,
        label: u32,
        command: u32,
        params: Params,
    ) -> Result<Taken, NoMemory>
        requires { self.old.queue.next < MAX_NUMBER }
        ensures ok { IfOk result (λ waiting.
            IsCalled self.new (called_of waiting) self.old.queue.next
            (called_invoke (machine_of self.old) client label command params)) }
        ensures err { OnErr result (machine_of self.new ≡ machine_of self.old) }
    {
        if params.check().is_err() {
            drop(params);
            return Ok(self.answer_at_once(Code::BAD_PARAMETERS, Origin::Api));
        }
        if let Some(code) = references_refusal(&self.blocks, client, &params) {
            drop(params);
            return Ok(self.answer_at_once(code, Origin::Api));
        }
        let Some(known) = self.sessions.find(client, label) else {
            drop(params);
            return Ok(self.answer_at_once(Code::BAD_STATE, Origin::Api));
        };
        match known.state {
            SessionState::Opening | SessionState::Closing => {
                drop(params);
                Ok(self.answer_at_once(Code::BAD_STATE, Origin::Api))
            }
            SessionState::Dead => {
                drop(params);
                Ok(self.answer_at_once(Code::TARGET_DEAD, Origin::Tee))
            }
            SessionState::Open => {
                if self.queue.is_full() {
                    drop(params);
                    return Ok(self.answer_at_once(Code::BUSY, Origin::Tee));
                }
                let call = Call::Invoke {
                    label,
                    command,
                    params,
                };
                self.wait_for(client, known.instance, known.session, call)
            }
        }
    }

    fn close(&mut self, client: u8, label: u32) -> Result<Taken, NoMemory>
        requires { self.old.queue.next < MAX_NUMBER }
        ensures ok { IfOk result (λ waiting.
            IsCalled self.new (called_of waiting) self.old.queue.next
            (closed_in (machine_of self.old) client label
            (facts_of_label (machine_of self.old) client label))) }
        ensures err { OnErr result (machine_of self.new ≡ machine_of self.old) }
    {
        let Some(known) = self.sessions.find(client, label) else {
            return Ok(self.answer_at_once(Code::BAD_STATE, Origin::Api));
        };
        match known.state {
            SessionState::Opening | SessionState::Closing => Ok(self.answer_at_once(
                Code::BAD_STATE,
                Origin::Api,
            )),
            SessionState::Dead => {
                self.sessions.remove(known.session);
                Ok(self.answer_at_once(Code::SUCCESS, Origin::Tee))
            }
            SessionState::Open => {
                let waiting = self.wait_for(
                    client,
                    known.instance,
                    known.session,
                    Call::Close { label },
                )?;
                self.sessions.set(known.session, SessionState::Closing);
                Ok(waiting)
            }
        }
    }

    /// A client's call.
    #[tactic(auto, unfolding(alone::specs::Step::after_call))]
    #[inline(never)]
    pub(crate) fn serve(&mut self, client: u8, call: Call) -> Result<Taken, NoMemory>
        requires room { self.old.queue.next < MAX_NUMBER }
        requires client { client < MAX_CLIENTS }
        ensures ok { IfOk result (λ waiting.
            IsCalled self.new (called_of waiting) self.old.queue.next
            (after_call (machine_of self.old) client call)) }
        ensures err { OnErr result (machine_of self.new ≡ machine_of self.old) }
    {
        match call {
            Call::Open {
                label,
                login,
                params,
            } => self.open(client, label, &login, params),
            Call::Invoke {
                label,
                command,
                params,
            } => self.invoke(client, label, command, params),
            Call::Close { label } => self.close(client, label),
            Call::Share { block, flags, size } => self.share(client, block, flags, size),
            Call::Fill { block, at, bytes } => self.fill(client, block, at, bytes),
            Call::Show { block } => self.show(client, block),
            Call::Unshare { block } => self.unshare(client, block),
        }
    }
}
