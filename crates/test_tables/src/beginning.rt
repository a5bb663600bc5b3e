//! How the tests begin an operation.

ghost use Rattle.std.specs.Prelude.{◌≡◌, option_map};
ghost use Rattle.op_queue.specs.Queue.{after_begin, begun_at, first_waiting};

use op_queue::OpQueue;

/// Begins the instance's operation with the least number that waits, and answers its number.
pub fn begin(queue: &mut OpQueue, instance: u8) -> Option<u64>
    ensures number { result
        ≡ option_map (λ begun. begun.op) (begun_at (first_waiting queue.old instance)) }
    ensures after { queue.new ≡ after_begin queue.old (first_waiting queue.old instance) }
{
    queue.begin(instance).map(|begun| begun.op)
}
