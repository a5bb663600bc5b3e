//! Instructions that compute a value, and those whose value goes to x0.

use crate::machines::machine_of;
use rv32::BASE;
use std::alloc::AllocError;
use std::process::Abort;

/// An instruction with its word, what x1 and x2 hold, and what is in x3 after it.
const ROWS: &[(&str, u32, u32, u32, u32)] = &[
    ("add x3, x1, x2", 0x002081b3, 1, 2, 3),
    ("add x3, x1, x2", 0x002081b3, 0x7fff_ffff, 1, 0x8000_0000),
    ("add x3, x1, x2", 0x002081b3, 0xffff_ffff, 1, 0),
    ("add x3, x1, x2", 0x002081b3, 0x8000_0000, 0x8000_0000, 0),
    ("add x3, x0, x1", 0x001001b3, 7, 9, 7),
    ("add x3, x2, x0", 0x000101b3, 7, 9, 9),
    ("sub x3, x1, x2", 0x402081b3, 5, 7, 0xffff_fffe),
    ("sub x3, x1, x2", 0x402081b3, 0x8000_0000, 1, 0x7fff_ffff),
    ("sub x3, x1, x2", 0x402081b3, 0, 0x8000_0000, 0x8000_0000),
    ("sub x3, x1, x2", 0x402081b3, 9, 9, 0),
    ("sll x3, x1, x2", 0x002091b3, 0x8000_0001, 0, 0x8000_0001),
    ("sll x3, x1, x2", 0x002091b3, 3, 31, 0x8000_0000),
    ("sll x3, x1, x2", 0x002091b3, 1, 32, 1),
    ("sll x3, x1, x2", 0x002091b3, 1, 0xffff_ffe1, 2),
    ("slt x3, x1, x2", 0x0020a1b3, 1, 0xffff_ffff, 0),
    ("slt x3, x1, x2", 0x0020a1b3, 0xffff_ffff, 0, 1),
    ("slt x3, x1, x2", 0x0020a1b3, 0x8000_0000, 0x7fff_ffff, 1),
    ("slt x3, x1, x2", 0x0020a1b3, 0x7fff_ffff, 0x8000_0000, 0),
    ("slt x3, x1, x2", 0x0020a1b3, 5, 5, 0),
    ("sltu x3, x1, x2", 0x0020b1b3, 1, 0xffff_ffff, 1),
    ("sltu x3, x1, x2", 0x0020b1b3, 0xffff_ffff, 0, 0),
    ("sltu x3, x1, x2", 0x0020b1b3, 0x7fff_ffff, 0x8000_0000, 1),
    ("sltu x3, x1, x2", 0x0020b1b3, 5, 5, 0),
    (
        "xor x3, x1, x2",
        0x0020c1b3,
        0xff00_ff00,
        0x0ff0_0ff0,
        0xf0f0_f0f0,
    ),
    ("xor x3, x1, x2", 0x0020c1b3, 0xff00_ff00, 0xff00_ff00, 0),
    ("srl x3, x1, x2", 0x0020d1b3, 0x8000_0000, 31, 1),
    ("srl x3, x1, x2", 0x0020d1b3, 0x8000_0000, 0, 0x8000_0000),
    ("srl x3, x1, x2", 0x0020d1b3, 0xf000_0000, 4, 0x0f00_0000),
    ("srl x3, x1, x2", 0x0020d1b3, 0xffff_ffff, 32, 0xffff_ffff),
    ("sra x3, x1, x2", 0x4020d1b3, 0x8000_0000, 31, 0xffff_ffff),
    ("sra x3, x1, x2", 0x4020d1b3, 0x8000_0000, 0, 0x8000_0000),
    ("sra x3, x1, x2", 0x4020d1b3, 0x7fff_ffff, 31, 0),
    ("sra x3, x1, x2", 0x4020d1b3, 0xf000_0000, 4, 0xff00_0000),
    ("sra x3, x1, x2", 0x4020d1b3, 0x8000_0000, 33, 0xc000_0000),
    (
        "or x3, x1, x2",
        0x0020e1b3,
        0xff00_ff00,
        0x0ff0_0ff0,
        0xfff0_fff0,
    ),
    (
        "and x3, x1, x2",
        0x0020f1b3,
        0xff00_ff00,
        0x0ff0_0ff0,
        0x0f00_0f00,
    ),
    ("addi x3, x1, -1", 0xfff08193, 0, 0, 0xffff_ffff),
    ("addi x3, x1, -1", 0xfff08193, 1, 0, 0),
    ("addi x3, x1, 2047", 0x7ff08193, 0x7fff_f801, 0, 0x8000_0000),
    ("addi x3, x1, -2048", 0x80008193, 0, 0, 0xffff_f800),
    ("addi x3, x1, 0", 0x00008193, 7, 0, 7),
    ("slti x3, x1, -1", 0xfff0a193, 0xffff_fffe, 0, 1),
    ("slti x3, x1, -1", 0xfff0a193, 0xffff_ffff, 0, 0),
    ("slti x3, x1, -1", 0xfff0a193, 0, 0, 0),
    ("slti x3, x1, 0", 0x0000a193, 0x8000_0000, 0, 1),
    ("sltiu x3, x1, -1", 0xfff0b193, 0xffff_fffe, 0, 1),
    ("sltiu x3, x1, -1", 0xfff0b193, 0xffff_ffff, 0, 0),
    ("sltiu x3, x1, -1", 0xfff0b193, 0, 0, 1),
    ("sltiu x3, x1, 1", 0x0010b193, 0, 0, 1),
    ("sltiu x3, x1, 1", 0x0010b193, 1, 0, 0),
    ("xori x3, x1, -1", 0xfff0c193, 0x1234_5678, 0, 0xedcb_a987),
    ("ori x3, x1, -2048", 0x8000e193, 1, 0, 0xffff_f801),
    ("ori x3, x1, 2047", 0x7ff0e193, 0, 0, 0x7ff),
    (
        "andi x3, x1, -2048",
        0x8000f193,
        0xffff_ffff,
        0,
        0xffff_f800,
    ),
    ("andi x3, x1, 15", 0x00f0f193, 0x1234_567f, 0, 0xf),
    ("slli x3, x1, 0", 0x00009193, 0x8000_0001, 0, 0x8000_0001),
    ("slli x3, x1, 31", 0x01f09193, 3, 0, 0x8000_0000),
    ("srli x3, x1, 0", 0x0000d193, 0x8000_0001, 0, 0x8000_0001),
    ("srli x3, x1, 31", 0x01f0d193, 0x8000_0000, 0, 1),
    ("srai x3, x1, 0", 0x4000d193, 0x8000_0001, 0, 0x8000_0001),
    ("srai x3, x1, 1", 0x4010d193, 0x8000_0001, 0, 0xc000_0000),
    ("srai x3, x1, 1", 0x4010d193, 0x7fff_fffe, 0, 0x3fff_ffff),
    ("srai x3, x1, 31", 0x41f0d193, 0x8000_0000, 0, 0xffff_ffff),
    ("lui x3, 0", 0x000001b7, 0, 0, 0),
    ("lui x3, 1", 0x000011b7, 0, 0, 0x1000),
    ("lui x3, 0xfffff", 0xfffff1b7, 0, 0, 0xffff_f000),
    ("auipc x3, 0", 0x00000197, 0, 0, 0x1_0000),
    ("auipc x3, 1", 0x00001197, 0, 0, 0x1_1000),
    ("auipc x3, 0xffff0", 0xffff0197, 0, 0, 0),
    ("auipc x3, 0xfffe0", 0xfffe0197, 0, 0, 0xffff_0000),
    ("fence", 0x0ff0000f, 0, 0, 0),
];

/// An instruction whose value goes to x0 with its word, and what x1 and x2 hold.
const DISCARDED: &[(&str, u32, u32, u32)] = &[
    ("add x0, x1, x2", 0x00208033, 0x1_0020, 6),
    ("addi x0, x1, 5", 0x00508013, 0x1_0020, 6),
    ("lui x0, 1", 0x00001037, 0x1_0020, 6),
    ("auipc x0, 1", 0x00001017, 0x1_0020, 6),
    ("jal x0, 8", 0x0080006f, 0x1_0020, 6),
    ("jalr x0, 0(x1)", 0x00008067, 0x1_0020, 6),
    ("lw x0, 0(x1)", 0x0000a003, 0x1_0020, 6),
    ("lbu x0, 0(x1)", 0x0000c003, 0x1_0020, 6),
];

#[test]
fn values(rt: HostRuntime) -> Result<(), AllocError> {
    for (name, word, one, other, want) in ROWS {
        let mut machine = machine_of(rt.alloc(), *word, *one, *other)?;
        let stop = machine.step();
        assert!(rt; stop.is_none(), "{name}");
        assert_eq!(rt; machine.registers[3], *want, "{name}");
        assert_eq!(rt; machine.pc, BASE + 4, "{name}");
    }
    Ok(())
}

#[test]
fn x0_stays_zero(rt: HostRuntime) -> Result<(), AllocError> {
    for (name, word, one, other) in DISCARDED {
        let mut machine = machine_of(rt.alloc(), *word, *one, *other)?;
        let before = machine.registers;
        let stop = machine.step();
        assert!(rt; stop.is_none() && machine.registers == before, "{name}");
    }
    Ok(())
}
