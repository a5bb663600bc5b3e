//! What a program does that is no instruction and no ask: the instance panics.

use crate::machines::{EBREAK, answer, app_of, app_that_asks, create, is_panic};
use app_api::{Answer, Ask};
use c_app::Phase;
use rv32::BASE;
use std::process::Abort;
use std::test::Fail;
use tee_base::Bytes;

/// A first instruction, and whether the application is to panic at it.
const FAULTS: &[(&str, u32)] = &[
    ("lw x1, 0(x0): a wild load", 0x0000_2083),
    ("sw x0, 0(x0): a wild store", 0x0000_2023),
    ("sw x0, -1(x0): a store at the last address", 0xfe00_2fa3),
    ("no instruction", 0x0000_0000),
    ("ebreak", EBREAK),
    ("jal x0, 2: a misaligned jump", 0x0020_006f),
    ("jalr x0, 0(x0): a jump out of memory", 0x0000_0067),
];

/// The registers a0 to a7 at `ecall`, which say no ask.
const NO_ASKS: &[(&str, [u32; 8])] = &[
    ("no such number", [0, 0, 0, 0, 0, 0, 0, 53]),
    ("the greatest number", [0, 0, 0, 0, 0, 0, 0, u32::MAX]),
    ("bytes below the memory", [1, 0, 1, 0, 0, 0, 0, 6]),
    ("bytes past its end", [1, BASE + 0x3ff, 2, 0, 0, 0, 0, 6]),
    ("more bytes than may be", [1, BASE, 524_289, 0, 0, 0, 0, 13]),
    (
        "second bytes past the end",
        [1, BASE, 1, 0, BASE + 0x400, 1, 0, 7],
    ),
];

#[test]
fn faults(rt: HostRuntime) -> Result<(), Fail> {
    for (name, word) in FAULTS {
        let mut app = app_of(rt.alloc(), &[*word])?;
        let ask = create(rt.alloc(), &mut app)?;
        let right = is_panic(&ask);
        drop(ask);
        assert!(rt; right, "{name}");
    }
    Ok(())
}

#[test]
fn what_is_no_ask(rt: HostRuntime) -> Result<(), Fail> {
    for (name, registers) in NO_ASKS {
        let mut app = app_that_asks(rt.alloc(), registers)?;
        let ask = create(rt.alloc(), &mut app)?;
        let right = is_panic(&ask);
        drop(ask);
        assert!(rt; right, "{name}");
    }
    Ok(())
}

#[test]
fn no_bytes_lie_at_any_address(rt: HostRuntime) -> Result<(), Fail> {
    let mut app = app_that_asks(rt.alloc(), &[5, 0, 0, 0, 0, 0, 0, 13])?;
    let ask = create(rt.alloc(), &mut app)?;
    let right = match &ask {
        Ask::ObjWrite { object: 5, bytes } => bytes.len() == 0,
        _ => false,
    };
    drop(ask);
    assert!(rt; right);
    Ok(())
}

#[test]
fn an_answer_out_of_memory(rt: HostRuntime) -> Result<(), Fail> {
    let alloc = rt.alloc();
    // The answer is to go to the address 0. After it the program would ask for the flag again.
    let mut app = app_that_asks(alloc, &[5, 64, 0, 0, 0, 0, 0, 12])?;
    drop(create(alloc, &mut app)?);
    let before = app.machine.pc;
    let content = Answer::Content(Bytes::from_slice(alloc, b"abc")?);
    let ask = answer(alloc, &mut app, content)?;
    let right = is_panic(&ask);
    drop(ask);
    assert!(rt; right);
    assert_eq!(rt; app.machine.pc, before);
    Ok(())
}

/// `addi t1, t1, 1`, with `jal x0, -4` after it.
const COUNT: &[u32] = &[0x0013_0313, 0xffdf_f06f];

/// The register t1.
const T1: usize = 6;

#[test]
fn a_loop_without_end_yields(rt: HostRuntime) -> Result<(), Fail> {
    let alloc = rt.alloc();
    let mut app = app_of(alloc, COUNT)?;
    let first = create(alloc, &mut app)?;
    let yields = matches!(first, Ask::CancelFlag);
    drop(first);
    assert!(rt; yields && app.phase == Phase::Yields);
    assert_eq!(rt; app.machine.registers[T1], 500_000);
    let second = answer(alloc, &mut app, Answer::Truth(true))?;
    let yields = matches!(second, Ask::CancelFlag);
    drop(second);
    assert!(rt; yields && app.phase == Phase::Yields);
    assert_eq!(rt; app.machine.registers[T1], 1_000_000);
    Ok(())
}
