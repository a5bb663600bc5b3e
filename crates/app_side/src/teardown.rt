//! How an instance ends.

ghost use Rattle.std.specs.Prelude.{◌≡◌, ◌≤◌, ◌+◌, [], map, filter, length, not};
ghost use Rattle.tee_base.specs.declared.limits.TheConstants.{MAX_OPERATIONS, MAX_SESSIONS};
ghost use Rattle.alone.specs.Machine.{is_number};
ghost use Rattle.alone.specs.Replies.{no_outputs};
ghost use Rattle.alone.specs.Step.{belongs_to, instance_gone, reply_of, torn_down};
ghost use Rattle.app_side.specs.Represents.{machine_of, IsTurned};

use crate::side::AppSide;
use alone::{Instance, Outputs, Replies, Reply};
use app_api::Application;
use op_queue::Operation;
use tee_base::{Code, Origin};

/// The replies to the operations of an instance that is torn down.
fn answer_all(
    operations: &[Operation],
    instance: u8,
    code: Code,
    origin: Origin,
    replies: &mut Replies,
)
    requires few { length operations.now ≤ MAX_OPERATIONS + MAX_SESSIONS }
    requires none { replies.old ≡ [] }
    ensures { replies.new ≡ map (λ o. reply_of o.number code origin no_outputs)
        (filter (belongs_to instance) operations.now) }
{
    for operation in operations {
        if operation.instance == instance {
            replies.push(Reply {
                op: operation.number,
                code,
                origin,
                outputs: Outputs::nothing(),
            });
        }
    }
}

/// Leaves out the instance of this number.
fn leave_out<A: Drop>(instances: &mut Vec<Instance<A>>, number: u8)
    ensures { instances.new.items
        ≡ filter (λ other. not (is_number number other)) instances.old.items }
{
    instances.retain(|instance| instance.number != number);
}

impl<A: Application> AppSide<A> {
    /// The instance is gone, with its sessions, its operations and all that it holds.
    pub(crate) fn end_instance(&mut self, number: u8)
        ensures { machine_of self.new ≡ instance_gone (machine_of self.old) number }
    {
        self.queue.clear(number);
        self.sessions.end(number);
        self.held.close_instance(number);
        self.operations.end_instance(number);
        leave_out(&mut self.instances, number);
    }

    /// Each unanswered operation of the instance is answered with the code, and the instance is gone.
    pub(crate) fn tear_down(
        &mut self,
        number: u8,
        code: Code,
        origin: Origin,
        replies: &mut Replies,
    )
        requires { replies.old ≡ [] }
        ensures { IsTurned self.new replies.new
            (torn_down (machine_of self.old) number code origin) }
    {
        self.queue.bounds();
        answer_all(self.queue.operations(), number, code, origin, replies);
        self.end_instance(number);
    }
}
