//! What follows from the definition of a step.

ghost use Rattle.std.specs.Prelude.{◌≡◌, ◌≢◌, ℕ, List, Some, None, length};
ghost use Rattle.app_api.specs.declared.ask.Given.{Given};
ghost use Rattle.app_api.specs.declared.out.Out.TheVariants.{Mem as OutMem};
ghost use Rattle.rv32.specs.declared.machine.Halt.{Halt};
ghost use Rattle.rv32.specs.declared.machine.Halt.TheVariants.{Call, Budget};
ghost use Rattle.c_app.specs.Asking.{ask_of};
ghost use Rattle.c_app.specs.Laws.{IsSaid, IsOfBuffer};
ghost use Rattle.c_app.specs.Outputs.{out_at};
ghost use Rattle.c_app.specs.Steps.{next_state, next_ask, asked_at, panic};
ghost use Rattle.c_app.specs.declared.app.CApp.{CApp};
ghost use Rattle.c_app.specs.declared.slots.Slot.TheVariants.{Mem};

/// Whatever an application asks for is what its registers and its memory say, but for a panic, a yield, and the end of an entry whose
/// parameters have no place.
pub fn asks_are_said()
    // Nothing is asked for that the program didn't say.
    ensures { (s : CApp) (given : Given) → IsSaid (next_state s given) (next_ask s given) }
{}

/// What is no ask is a panic of the instance.
pub fn mistakes_panic()
    // A call whose registers and memory say no ask.
    ensures call { (s : CApp) → ask_of s.machine s.layout.block s.slots ≡ None
        → asked_at Call s ≡ panic }
    // Whatever stops the machine that is no call and no budget.
    ensures stop { (s : CApp) (stop : Halt) → stop ≢ Call → stop ≢ Budget
        → asked_at stop s ≡ panic }
{}

/// Bytes that go out are those of the buffer that the entry was given, and no more than it has.
pub fn outputs_fit()
    // Whatever the memory says at the address of the parameter.
    ensures { (m : List ℕ) (address room at : ℕ) (bytes : List ℕ)
        → out_at (Mem address room) m at ≡ Some (OutMem bytes) → IsOfBuffer m address room bytes }
{}

/// The memory keeps its size. So it never has more than 1 MiB where it begins so.
pub fn memory_keeps_its_size()
    // A step leaves as many bytes as there were.
    ensures { (s : CApp) (given : Given)
        → length (next_state s given).machine.memory ≡ length s.machine.memory }
{}
