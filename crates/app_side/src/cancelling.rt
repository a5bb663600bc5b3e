//! Requests to cancel an operation.

ghost use Rattle.std.specs.Prelude.{◌≡◌, ◌==◌, find, option_map};
ghost use Rattle.alone.specs.Machine.{instance_at};
ghost use Rattle.alone.specs.Step.{after_cancellation, after_dropped_open, is_unused, open_of_progress, unless_unused, waiting_open};
ghost use Rattle.app_side.specs.Represents.{machine_of, IsTurned};

use crate::side::AppSide;
use alone::{Outputs, Replies, Reply, place_of};
use app_api::{Application, Call};
use op_queue::{Cancelled, Operation, Progress};
use tee_base::{Code, Origin};

/// The session and the instance of the operation, where it is an open that waits.
fn open_of(operation: &Operation) -> Option<(u8, u8)>
    ensures { result
        ≡ open_of_progress operation.now.session operation.now.instance operation.now.progress }
{
    match &operation.progress {
        Progress::Waiting(Call::Open { .. }) => Some((operation.session, operation.instance)),
        _ => None,
    }
}

/// The operation of this number.
fn operation_of(operations: &[Operation], op: u64) -> Option<&Operation>
    ensures { option_map (λ o. o.now) result ≡ find (λ o. o.number == op) operations.now }
{
    operations.iter().find(|o| o.number == op)
}

/// The same of the operation of this number.
fn waiting_open(operations: &[Operation], op: u64) -> Option<(u8, u8)>
    ensures { result ≡ waiting_open (find (λ o. o.number == op) operations.now) }
{
    match operation_of(operations, op) {
        None => None,
        Some(operation) => open_of(operation),
    }
}

impl<A: Application> AppSide<A> {
    /// Whether the instance never ran its create entry, and has no session left.
    fn is_unused(&self, number: u8) -> bool
        ensures { result
            ≡ is_unused (machine_of self.now) number (instance_at (machine_of self.now) number) }
    {
        match place_of(self.instances.as_slice(), number) {
            None => false,
            Some(place) => !self.instances[place].created && !self.sessions.has_session(number),
        }
    }

    /// An open that never begins loses its session, and an instance that nothing needs any more is gone.
    fn drop_open(&mut self, waiting: Option<(u8, u8)>)
        ensures { machine_of self.new ≡ after_dropped_open (machine_of self.old) waiting }
    {
        let Some((session, instance)) = waiting else {
            return;
        };
        self.sessions.remove(session);
        if self.is_unused(instance) {
            self.end_instance(instance);
        }
    }

    /// A client asks for the operation to be cancelled.
    #[tactic(auto, unfolding(alone::specs::Step::after_cancellation))]
    #[inline(never)]
    pub(crate) fn request(&mut self, op: u64) -> Replies
        ensures { IsTurned self.new result (after_cancellation (machine_of self.old) op) }
    {
        let waiting = waiting_open(self.queue.operations(), op);
        match self.queue.cancel(op) {
            Cancelled::Dropped => {
                self.drop_open(waiting);
                Replies::one(Reply {
                    op,
                    code: Code::CANCEL,
                    origin: Origin::Tee,
                    outputs: Outputs::nothing(),
                })
            }
            Cancelled::Flagged | Cancelled::Nothing => Replies::none(),
        }
    }
}
