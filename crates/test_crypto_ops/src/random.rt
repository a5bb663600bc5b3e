//! Random streams against the block of ChaCha20 of an all-zero key.

use crypto_ops::Stream;
use std::alloc::Global;
use std::process::Abort;

/// How many bytes are taken, and which they are.
type Taken = (u32, &'static [u8]);

/// The first words of the block.
const FIRST: &[u8] = &[0x76, 0xb8, 0xe0, 0xad, 0xa0, 0xf1, 0x3d, 0x90];

/// The first words of the same block under a nonce: the application's number and the power-up's.
const NONCES: &[(u8, u32, Taken)] = &[
    (0, 0, (8, FIRST)),
    (1, 0, (8, &[0x06, 0x5d, 0x06, 0x7d, 0xf4, 0xeb, 0xbe, 0xdc])),
    (0, 1, (8, &[0xef, 0x3f, 0xdf, 0xd6, 0xc6, 0x15, 0x78, 0xfb])),
    (
        15,
        7,
        (8, &[0x43, 0xff, 0x4d, 0x9a, 0x16, 0x85, 0xda, 0xdc]),
    ),
];

/// Takes so many bytes, and says whether they are these.
fn takes(rt: &impl Abort, alloc: Global, stream: &mut Stream, taken: Taken) -> bool {
    let (count, wanted) = taken;
    let bytes = stream.take(alloc, count).expect(rt, "bytes");
    bytes.as_slice() == wanted
}

/// Makes the takes in order on the stream of a nonce.
fn check(rt: &impl Abort, alloc: Global, application: u8, boot: u32, all: &[Taken]) {
    let mut stream = Stream::new([0; 32], application, boot);
    for taken in all {
        let holds = takes(rt, alloc, &mut stream, *taken);
        assert!(rt; holds, "application {application} in power-up {boot}");
    }
    drop(stream);
}

#[test]
fn random_words(rt: HostRuntime) {
    for nonce in NONCES {
        let (application, boot, taken) = *nonce;
        check(&rt, rt.alloc(), application, boot, &[taken]);
    }
}

#[test]
fn parts_begin_at_whole_words(rt: HostRuntime) {
    const WHOLE: &[Taken] = &[(
        16,
        &[
            0x76, 0xb8, 0xe0, 0xad, 0xa0, 0xf1, 0x3d, 0x90, 0x40, 0x5d, 0x6a, 0xe5, 0x53, 0x86,
            0xbd, 0x28,
        ],
    )];
    // a take begins at a whole word
    const PARTS: &[Taken] = &[
        (6, &[0x76, 0xb8, 0xe0, 0xad, 0xa0, 0xf1]),
        (4, &[0x40, 0x5d, 0x6a, 0xe5]),
        (0, &[]),
        (4, &[0x53, 0x86, 0xbd, 0x28]),
    ];
    check(&rt, rt.alloc(), 0, 0, WHOLE);
    check(&rt, rt.alloc(), 0, 0, PARTS);
}
