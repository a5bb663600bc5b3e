//! The list of operations, read by one scan.

ghost use Rattle.std.specs.Prelude.{◌≡◌, ◌==◌, ◌<◌, not, count_by, position, remove, vec_len, filter};
ghost use Rattle.op_queue.specs.Queue.{is_close, waits_for};

use crate::operation::Operation;

/// How many are no closes.
pub fn count_others(operations: &[Operation]) -> usize
    ensures { result ≡ count_by (λ o. not (is_close o.progress)) operations.now }
{
    let mut count = 0;
    for operation in operations {
        if !operation.progress.is_close() {
            count += 1;
        }
    }
    count
}

/// How many are closes.
pub fn count_closes(operations: &[Operation]) -> usize
    ensures { result ≡ count_by (λ o. is_close o.progress) operations.now }
{
    let mut count = 0;
    for operation in operations {
        if operation.progress.is_close() {
            count += 1;
        }
    }
    count
}

/// Takes the operation at this place out.
pub fn take_out(operations: &mut Vec<Operation>, index: usize)
    requires { index < vec_len operations.old }
    ensures { operations.new.items ≡ remove operations.old.items index }
{
    drop(operations.remove(index));
}

/// The place of the operation of this number.
pub fn place_of(operations: &[Operation], op: u64) -> Option<usize>
    ensures { result ≡ position (λ o. o.number == op) operations.now }
{
    operations.iter().position(|o| o.number == op)
}

/// The place of the instance's first operation that waits.
pub fn place_of_waiting(operations: &[Operation], instance: u8) -> Option<usize>
    ensures { result ≡ position (waits_for instance) operations.now }
{
    operations.iter().position(|o| o.waits_for(instance))
}

/// Leaves out the operations of the instance.
pub fn leave_out(operations: &mut Vec<Operation>, instance: u8)
    ensures { operations.new.items
        ≡ filter (λ o. not (o.instance == instance)) operations.old.items }
{
    operations.retain(|o| o.instance != instance);
}
