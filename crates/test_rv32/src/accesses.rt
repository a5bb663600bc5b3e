//! Loads and stores, at both ends of the memory too.

use crate::machines::machine_of;
use rv32::{BASE, Halt};
use std::alloc::AllocError;
use std::process::Abort;

/// A load with its word, what x1 holds, and what is in x3 after it; none where there is no memory.
const LOADS: &[(&str, u32, u32, Option<u32>)] = &[
    ("lb x3, 0(x1)", 0x00008183, 0x1_0004, Some(4)),
    ("lb x3, 0(x1)", 0x00008183, 0x1_001f, Some(0x1f)),
    ("lb x3, 0(x1)", 0x00008183, 0x1_0020, Some(0xffff_ffa0)),
    ("lb x3, 0(x1)", 0x00008183, 0x1_003f, Some(0xffff_ffbf)),
    ("lb x3, 0(x1)", 0x00008183, 0x1_0040, None),
    ("lb x3, 0(x1)", 0x00008183, 0xffff, None),
    ("lb x3, 1(x1)", 0x00108183, 0xffff, Some(0xffff_ff83)),
    ("lb x3, 1(x1)", 0x00108183, 0xffff_ffff, None),
    ("lb x3, -1(x1)", 0xfff08183, 0, None),
    ("lbu x3, 0(x1)", 0x0000c183, 0x1_0004, Some(4)),
    ("lbu x3, 0(x1)", 0x0000c183, 0x1_003f, Some(0xbf)),
    ("lbu x3, 0(x1)", 0x0000c183, 0x1_0040, None),
    ("lbu x3, 0(x1)", 0x0000c183, 0xffff, None),
    ("lh x3, 0(x1)", 0x00009183, 0x1_0004, Some(0x0504)),
    ("lh x3, 0(x1)", 0x00009183, 0x1_0005, Some(0x0605)),
    ("lh x3, 0(x1)", 0x00009183, 0x1_001f, Some(0xffff_a01f)),
    ("lh x3, 0(x1)", 0x00009183, 0x1_003e, Some(0xffff_bfbe)),
    ("lh x3, 0(x1)", 0x00009183, 0x1_003f, None),
    ("lh x3, 0(x1)", 0x00009183, 0xffff, None),
    ("lhu x3, 0(x1)", 0x0000d183, 0x1_0004, Some(0x0504)),
    ("lhu x3, 0(x1)", 0x0000d183, 0x1_003e, Some(0xbfbe)),
    ("lhu x3, 0(x1)", 0x0000d183, 0x1_003f, None),
    ("lhu x3, 0(x1)", 0x0000d183, 0xffff, None),
    ("lw x3, 0(x1)", 0x0000a183, 0x1_0004, Some(0x0706_0504)),
    ("lw x3, 0(x1)", 0x0000a183, 0x1_0005, Some(0x0807_0605)),
    ("lw x3, 0(x1)", 0x0000a183, 0x1_003c, Some(0xbfbe_bdbc)),
    ("lw x3, 0(x1)", 0x0000a183, 0x1_003d, None),
    ("lw x3, 0(x1)", 0x0000a183, 0x1_003e, None),
    ("lw x3, 0(x1)", 0x0000a183, 0x1_003f, None),
    ("lw x3, 0(x1)", 0x0000a183, 0xfffd, None),
    ("lw x3, 0(x1)", 0x0000a183, 0xffff, None),
    ("lw x3, -4(x1)", 0xffc0a183, 0x1_0040, Some(0xbfbe_bdbc)),
    ("lw x3, 2047(x1)", 0x7ff0a183, 0xf805, Some(0x0706_0504)),
    ("lw x3, -2048(x1)", 0x8000a183, 0x1_0804, Some(0x0706_0504)),
    ("lw x3, 0(x1)", 0x0000a183, 0x1_0000, Some(0x0000_a183)),
];

/// A store with its word, what x1 and x2 hold, whether there is memory, and the word that is then found at an address.
const STORES: &[(&str, u32, u32, u32, bool, u32, u32)] = &[
    (
        "sb x2, 0(x1)",
        0x00208023,
        0x1_0004,
        0x1234_56ff,
        true,
        0x1_0004,
        0x0706_05ff,
    ),
    (
        "sb x2, 0(x1)",
        0x00208023,
        0x1_003f,
        0x80,
        true,
        0x1_003c,
        0x80be_bdbc,
    ),
    (
        "sb x2, 0(x1)",
        0x00208023,
        0x1_0040,
        0x80,
        false,
        0x1_003c,
        0xbfbe_bdbc,
    ),
    (
        "sb x2, 0(x1)",
        0x00208023,
        0xffff,
        0x80,
        false,
        0x1_0000,
        0x0020_8023,
    ),
    (
        "sh x2, 0(x1)",
        0x00209023,
        0x1_0004,
        0x1234_abcd,
        true,
        0x1_0004,
        0x0706_abcd,
    ),
    (
        "sh x2, 0(x1)",
        0x00209023,
        0x1_0005,
        0x1234_abcd,
        true,
        0x1_0004,
        0x07ab_cd04,
    ),
    (
        "sh x2, 0(x1)",
        0x00209023,
        0x1_003e,
        0x1234_abcd,
        true,
        0x1_003c,
        0xabcd_bdbc,
    ),
    (
        "sh x2, 0(x1)",
        0x00209023,
        0x1_003f,
        0x1234_abcd,
        false,
        0x1_003c,
        0xbfbe_bdbc,
    ),
    (
        "sh x2, 0(x1)",
        0x00209023,
        0xffff,
        0x1234_abcd,
        false,
        0x1_0000,
        0x0020_9023,
    ),
    (
        "sw x2, 0(x1)",
        0x0020a023,
        0x1_0004,
        0x89ab_cdef,
        true,
        0x1_0004,
        0x89ab_cdef,
    ),
    (
        "sw x2, 0(x1)",
        0x0020a023,
        0x1_0006,
        0x89ab_cdef,
        true,
        0x1_0004,
        0xcdef_0504,
    ),
    (
        "sw x2, 0(x1)",
        0x0020a023,
        0x1_003c,
        0x89ab_cdef,
        true,
        0x1_003c,
        0x89ab_cdef,
    ),
    (
        "sw x2, 0(x1)",
        0x0020a023,
        0x1_003d,
        0x89ab_cdef,
        false,
        0x1_003c,
        0xbfbe_bdbc,
    ),
    (
        "sw x2, 0(x1)",
        0x0020a023,
        0xfffe,
        0x89ab_cdef,
        false,
        0x1_0000,
        0x0020_a023,
    ),
    (
        "sw x2, 0(x1)",
        0x0020a023,
        0x1_0000,
        0x89ab_cdef,
        true,
        0x1_0000,
        0x89ab_cdef,
    ),
    (
        "sw x2, -4(x1)",
        0xfe20ae23,
        0x1_0008,
        0x89ab_cdef,
        true,
        0x1_0004,
        0x89ab_cdef,
    ),
    (
        "sw x2, 2047(x1)",
        0x7e20afa3,
        0xf805,
        0x89ab_cdef,
        true,
        0x1_0004,
        0x89ab_cdef,
    ),
    (
        "sw x0, 0(x1)",
        0x0000a023,
        0x1_0004,
        0x89ab_cdef,
        true,
        0x1_0004,
        0,
    ),
];

#[test]
fn loads(rt: HostRuntime) -> Result<(), AllocError> {
    for (name, word, one, want) in LOADS {
        let mut machine = machine_of(rt.alloc(), *word, *one, 0)?;
        let stop = machine.step();
        let (wanted, value, pc) = match *want {
            Some(value) => (None, value, BASE + 4),
            None => (Some(Halt::Outside), 0, BASE),
        };
        assert!(rt; stop == wanted, "{name} at {one}");
        assert_eq!(rt; machine.registers[3], value, "{name} at {one}");
        assert_eq!(rt; machine.pc, pc, "{name} at {one}");
    }
    Ok(())
}

#[test]
fn stores(rt: HostRuntime) -> Result<(), AllocError> {
    for (name, word, one, other, is_there, place, want) in STORES {
        let mut machine = machine_of(rt.alloc(), *word, *one, *other)?;
        let stop = machine.step();
        let (wanted, pc) = if *is_there {
            (None, BASE + 4)
        } else {
            (Some(Halt::Outside), BASE)
        };
        assert!(rt; stop == wanted, "{name} at {one}");
        assert!(rt;
            machine.memory.word(*place) == Some(*want),
            "{name} at {one}"
        );
        assert_eq!(rt; machine.pc, pc, "{name} at {one}");
    }
    Ok(())
}
