//! What follows from the definition of a step.

ghost use Rattle.std.specs.Prelude.{◌≡◌};
ghost use Rattle.rv32.specs.Machine.{step, value_of, LeavesIt};
ghost use Rattle.rv32.specs.declared.machine.Machine.{Machine};

/// Whatever stops the machine, but a call, leaves registers, address and memory as they were.
pub fn a_stop_changes_nothing()
    ensures { (m : Machine) → LeavesIt (step m).stop m (step m).machine }
{}

/// Register x0 stays 0.
pub fn x0_stays_zero()
    ensures { (m : Machine) → value_of m 0 ≡ 0 → value_of (step m).machine 0 ≡ 0 }
{}
