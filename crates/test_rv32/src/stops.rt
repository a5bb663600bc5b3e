//! Why a machine stops: calls, words that are no instruction, addresses without one, and a budget that is used up.

use crate::machines::machine_of;
use rv32::{BASE, Halt};
use std::alloc::AllocError;
use std::process::Abort;

/// A word, and why it stops the machine, with the address at which it goes on.
const STOPS: &[(&str, u32, Option<Halt>, u32)] = &[
    ("ecall", 0x0000_0073, Some(Halt::Call), 0x1_0004),
    ("ebreak", 0x0010_0073, Some(Halt::Break), 0x1_0000),
    ("fence iorw, iorw", 0x0ff0_000f, None, 0x1_0004),
    ("fence.tso", 0x8330_000f, None, 0x1_0004),
    ("pause", 0x0100_000f, None, 0x1_0004),
    ("fence with registers", 0x0ff0_8f8f, None, 0x1_0004),
    ("zeros", 0x0000_0000, Some(Halt::Illegal), 0x1_0000),
    ("ones", 0xffff_ffff, Some(Halt::Illegal), 0x1_0000),
    ("c.nop", 0x0000_0001, Some(Halt::Illegal), 0x1_0000),
    ("fence.i", 0x0000_100f, Some(Halt::Illegal), 0x1_0000),
    ("ecall with rd", 0x0000_00f3, Some(Halt::Illegal), 0x1_0000),
    ("uret", 0x0020_0073, Some(Halt::Illegal), 0x1_0000),
    ("wfi", 0x1050_0073, Some(Halt::Illegal), 0x1_0000),
    (
        "csrrw x0, 0, x0",
        0x0000_1073,
        Some(Halt::Illegal),
        0x1_0000,
    ),
    ("mul x3, x1, x2", 0x0220_81b3, Some(Halt::Illegal), 0x1_0000),
    ("slli by 32", 0x0200_9193, Some(Halt::Illegal), 0x1_0000),
    ("srli by 32", 0x0200_d193, Some(Halt::Illegal), 0x1_0000),
    (
        "sll with funct7 32",
        0x4020_91b3,
        Some(Halt::Illegal),
        0x1_0000,
    ),
    (
        "jalr with funct3 1",
        0x0000_9067,
        Some(Halt::Illegal),
        0x1_0000,
    ),
    (
        "a branch with funct3 2",
        0x0000_2063,
        Some(Halt::Illegal),
        0x1_0000,
    ),
    (
        "a branch with funct3 3",
        0x0000_3063,
        Some(Halt::Illegal),
        0x1_0000,
    ),
    ("ld", 0x0000_3003, Some(Halt::Illegal), 0x1_0000),
    ("lwu", 0x0000_6003, Some(Halt::Illegal), 0x1_0000),
    (
        "a load with funct3 7",
        0x0000_7003,
        Some(Halt::Illegal),
        0x1_0000,
    ),
    ("sd", 0x0000_3023, Some(Halt::Illegal), 0x1_0000),
];

/// An address to go on at, and why the machine stops there.
const PLACES: &[(u32, Halt)] = &[
    (0, Halt::NoInstruction),
    (0xfffc, Halt::NoInstruction),
    (0x1_0001, Halt::NoInstruction),
    (0x1_0002, Halt::NoInstruction),
    (0x1_003c, Halt::Illegal),
    (0x1_003e, Halt::NoInstruction),
    (0x1_0040, Halt::NoInstruction),
    (0xffff_fffc, Halt::NoInstruction),
];

/// `addi x1, x1, 1`, with `jal x0, -4` after it.
const COUNT: u32 = 0x0010_8093;

const BACK: u32 = 0xffdf_f06f;

/// A budget, with x1 and the address after so many instructions of the loop.
const BUDGETS: &[(u32, u32, u32)] = &[
    (0, 0, 0x1_0000),
    (1, 1, 0x1_0004),
    (2, 1, 0x1_0000),
    (3, 2, 0x1_0004),
    (1000, 500, 0x1_0000),
];

#[test]
fn stops(rt: HostRuntime) -> Result<(), AllocError> {
    for (name, word, want, pc) in STOPS {
        let mut machine = machine_of(rt.alloc(), *word, 7, 9)?;
        let before = machine.registers;
        let stop = machine.step();
        assert!(rt; stop == *want, "{name}");
        assert!(rt; machine.registers == before, "{name}");
        assert_eq!(rt; machine.pc, *pc, "{name}");
    }
    Ok(())
}

#[test]
fn places(rt: HostRuntime) -> Result<(), AllocError> {
    for (pc, want) in PLACES {
        let mut machine = machine_of(rt.alloc(), COUNT, 0, 0)?;
        machine.pc = *pc;
        let stop = machine.step();
        assert!(rt; stop == Some(*want), "at {pc}");
        assert_eq!(rt; machine.pc, *pc);
    }
    Ok(())
}

#[test]
fn budgets(rt: HostRuntime) -> Result<(), AllocError> {
    for (budget, count, pc) in BUDGETS {
        let mut machine = machine_of(rt.alloc(), COUNT, 0, 0)?;
        let _ = machine.memory.set_word(BASE + 4, BACK);
        let stop = machine.run(*budget);
        assert!(rt; stop == Halt::Budget, "{budget} instructions");
        assert_eq!(rt; machine.registers[1], *count, "{budget} instructions");
        assert_eq!(rt; machine.pc, *pc, "{budget} instructions");
    }
    Ok(())
}

#[test]
fn a_run_ends_at_a_call_and_goes_on(rt: HostRuntime) -> Result<(), AllocError> {
    let mut machine = machine_of(rt.alloc(), COUNT, 0, 0)?;
    let _ = machine.memory.set_word(BASE + 4, 0x73);
    assert!(rt; machine.run(10) == Halt::Call);
    assert_eq!(rt; machine.pc, BASE + 8);
    assert!(rt; machine.run(10) == Halt::Illegal);
    assert_eq!(rt; machine.registers[1], 1);
    assert_eq!(rt; machine.pc, BASE + 8);
    Ok(())
}
