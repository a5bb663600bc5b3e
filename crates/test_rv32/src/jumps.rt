//! Branches and jumps: where they lead, what they leave in x3, and when they stop.

use crate::machines::machine_of;
use rv32::{BASE, Halt};
use std::alloc::AllocError;
use std::process::Abort;

/// Where an instruction leads.
#[derive(Clone, Copy)]
enum To {
    /// It goes on there.
    Goes(u32),
    /// It goes on there, and the address of the instruction that follows is in x3.
    Links(u32),
    /// It stops as it is.
    Misaligned,
}

/// An instruction with its word, what x1 and x2 hold, and where it leads.
const ROWS: &[(&str, u32, u32, u32, To)] = &[
    ("beq x1, x2, 8", 0x00208463, 5, 5, To::Goes(0x1_0008)),
    ("beq x1, x2, 8", 0x00208463, 5, 6, To::Goes(0x1_0004)),
    ("bne x1, x2, 8", 0x00209463, 5, 6, To::Goes(0x1_0008)),
    ("bne x1, x2, 8", 0x00209463, 5, 5, To::Goes(0x1_0004)),
    (
        "blt x1, x2, 8",
        0x0020c463,
        0xffff_ffff,
        0,
        To::Goes(0x1_0008),
    ),
    (
        "blt x1, x2, 8",
        0x0020c463,
        0,
        0xffff_ffff,
        To::Goes(0x1_0004),
    ),
    (
        "blt x1, x2, 8",
        0x0020c463,
        0x8000_0000,
        0x7fff_ffff,
        To::Goes(0x1_0008),
    ),
    ("blt x1, x2, 8", 0x0020c463, 5, 5, To::Goes(0x1_0004)),
    (
        "bge x1, x2, 8",
        0x0020d463,
        0,
        0xffff_ffff,
        To::Goes(0x1_0008),
    ),
    (
        "bge x1, x2, 8",
        0x0020d463,
        0xffff_ffff,
        0,
        To::Goes(0x1_0004),
    ),
    ("bge x1, x2, 8", 0x0020d463, 5, 5, To::Goes(0x1_0008)),
    (
        "bltu x1, x2, 8",
        0x0020e463,
        0,
        0xffff_ffff,
        To::Goes(0x1_0008),
    ),
    (
        "bltu x1, x2, 8",
        0x0020e463,
        0xffff_ffff,
        0,
        To::Goes(0x1_0004),
    ),
    ("bltu x1, x2, 8", 0x0020e463, 5, 5, To::Goes(0x1_0004)),
    (
        "bgeu x1, x2, 8",
        0x0020f463,
        0xffff_ffff,
        0,
        To::Goes(0x1_0008),
    ),
    ("bgeu x1, x2, 8", 0x0020f463, 0, 1, To::Goes(0x1_0004)),
    ("bgeu x1, x2, 8", 0x0020f463, 5, 5, To::Goes(0x1_0008)),
    ("beq x0, x0, 0", 0x00000063, 0, 0, To::Goes(0x1_0000)),
    ("bne x1, x0, -4", 0xfe009ee3, 1, 0, To::Goes(0xfffc)),
    ("beq x1, x2, 4092", 0x7e208ee3, 5, 5, To::Goes(0x1_0ffc)),
    ("beq x1, x2, -4096", 0x80208063, 5, 5, To::Goes(0xf000)),
    ("beq x1, x2, 2", 0x00208163, 5, 5, To::Misaligned),
    ("beq x1, x2, 2", 0x00208163, 5, 6, To::Goes(0x1_0004)),
    ("beq x1, x2, 4094", 0x7e208fe3, 5, 5, To::Misaligned),
    ("jal x3, 8", 0x008001ef, 0, 0, To::Links(0x1_0008)),
    ("jal x3, 0", 0x000001ef, 0, 0, To::Links(0x1_0000)),
    ("jal x3, -4", 0xffdff1ef, 0, 0, To::Links(0xfffc)),
    ("jal x3, 1048572", 0x7fdff1ef, 0, 0, To::Links(0x10_fffc)),
    ("jal x3, -1048576", 0x800001ef, 0, 0, To::Links(0xfff1_0000)),
    ("jal x3, 2", 0x002001ef, 0, 0, To::Misaligned),
    ("jal x3, -2", 0xfffff1ef, 0, 0, To::Misaligned),
    (
        "jalr x3, 0(x1)",
        0x000081e7,
        0x1_0020,
        0,
        To::Links(0x1_0020),
    ),
    (
        "jalr x3, 0(x1)",
        0x000081e7,
        0x1_0021,
        0,
        To::Links(0x1_0020),
    ),
    ("jalr x3, 0(x1)", 0x000081e7, 0x1_0022, 0, To::Misaligned),
    ("jalr x3, 0(x1)", 0x000081e7, 0x1_0023, 0, To::Misaligned),
    (
        "jalr x3, -1(x1)",
        0xfff081e7,
        0x1_0021,
        0,
        To::Links(0x1_0020),
    ),
    (
        "jalr x3, 3(x1)",
        0x003081e7,
        0x1_001e,
        0,
        To::Links(0x1_0020),
    ),
    ("jalr x3, 1(x1)", 0x001081e7, 0xffff_ffff, 0, To::Links(0)),
    (
        "jalr x3, -2048(x1)",
        0x800081e7,
        0,
        0,
        To::Links(0xffff_f800),
    ),
];

#[test]
fn jumps(rt: HostRuntime) -> Result<(), AllocError> {
    for (name, word, one, other, to) in ROWS {
        let mut machine = machine_of(rt.alloc(), *word, *one, *other)?;
        let stop = machine.step();
        let (wanted, pc, link) = match *to {
            To::Goes(pc) => (None, pc, 0),
            To::Links(pc) => (None, pc, BASE + 4),
            To::Misaligned => (Some(Halt::Misaligned), BASE, 0),
        };
        assert!(rt; stop == wanted, "{name}");
        assert_eq!(rt; machine.pc, pc, "{name}");
        assert_eq!(rt; machine.registers[3], link, "{name}");
    }
    Ok(())
}

/// `jalr x1, 4(x1)`: the address is that of x1 before the jump.
#[test]
fn a_jump_over_its_own_base(rt: HostRuntime) -> Result<(), AllocError> {
    let mut machine = machine_of(rt.alloc(), 0x004080e7, 0x1_0020, 0)?;
    let stop = machine.step();
    assert!(rt; stop.is_none());
    assert_eq!(rt; machine.pc, 0x1_0024);
    assert_eq!(rt; machine.registers[1], BASE + 4);
    Ok(())
}
