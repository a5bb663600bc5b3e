//! Guesses, each with what the object holds, the tries that are written, and what is returned.

use crate::pin::Pin;
use app_api::{Answer, Application, Ask, Entry, Given, Out, Outs, Param, Params};
use std::alloc::Global;
use std::process::Abort;
use tee_base::{Bytes, Code};

/// The answer to an ask, over an object that holds this. What is written is noted.
fn answer_to(
    rt: &impl Abort,
    alloc: Global,
    kept: &[u8],
    ask: Ask,
    written: &mut Vec<u8>,
) -> Answer {
    match ask {
        Ask::ObjOpen { .. } => {
            drop(ask);
            Answer::Number(9)
        }
        Ask::ObjRead {
            object: 9,
            count: 17,
        } => {
            drop(ask);
            Answer::Content(Bytes::from_slice(alloc, kept).expect(rt, "what is kept"))
        }
        Ask::ObjWrite { object: 9, bytes } => {
            let noted = written.extend_from_slice(bytes.as_slice());
            drop(bytes);
            noted.expect(rt, "what is written");
            Answer::Done
        }
        Ask::ObjSeek {
            object: 9,
            offset: 0,
            whence: 0,
        } => {
            drop(ask);
            Answer::Done
        }
        Ask::ObjClose { object: 9 } => {
            drop(ask);
            Answer::Done
        }
        other => {
            drop(other);
            assert!(rt; false);
            Answer::Done
        }
    }
}

/// The parameters of a command that takes these bytes.
fn params_with(rt: &impl Abort, alloc: Global, bytes: &[u8]) -> Params {
    Params {
        p0: Param::MemIn(Bytes::from_slice(alloc, bytes).expect(rt, "the guess")),
        p1: Param::ValueOut,
        p2: Param::Nothing,
        p3: Param::Nothing,
    }
}

/// A guess at an object that holds this: the code that is returned with the tries, where they are shown.
fn guess(
    rt: &impl Abort,
    alloc: Global,
    kept: &[u8],
    guess: &[u8],
    written: &mut Vec<u8>,
) -> (Code, Option<u32>) {
    let mut pin = Pin::Idle;
    let entry = Entry::Invoke {
        session: 0,
        command: 2,
        params: params_with(rt, alloc, guess),
    };
    let mut given = Given::Entry(entry);
    for _ in 0..9 {
        let ask = pin.step(alloc, given).expect(rt, "an ask");
        if let Ask::Return { code, outs } = ask {
            let Outs { p1, .. } = outs;
            let tries = match p1 {
                Out::Value(tries, 0) => Some(tries),
                _ => None,
            };
            return (code, tries);
        }
        given = Given::Answer(answer_to(rt, alloc, kept, ask, written));
    }
    drop(given);
    (Code::GENERIC, None)
}

/// What the object holds, the guess, the tries that are written in their order, and what is returned.
const GUESSES: [(&[u8], &[u8], &[u8], Code, Option<u32>); 6] = [
    (b"\x031234", b"1111", b"\x02", Code::SECURITY, Some(2)),
    (b"\x011234", b"", b"\x00", Code::SECURITY, Some(0)),
    (b"\x001234", b"1234", b"", Code::ACCESS_DENIED, Some(0)),
    (b"\x011234", b"1234", b"\x00\x03", Code::SUCCESS, Some(3)),
    (b"\x031234", b"12345", b"\x02", Code::SECURITY, Some(2)),
    (b"", b"1234", b"", Code::BAD_STATE, None),
];

#[test]
fn guesses_cost_what_they_say(rt: HostRuntime) {
    let alloc = rt.alloc();
    for (kept, guessed, wanted, code, tries) in &GUESSES {
        let mut written = Vec::new(alloc);
        let told = guess(&rt, alloc, kept, guessed, &mut written);
        assert!(rt; told == (*code, *tries));
        assert!(rt; written.as_slice() == *wanted);
    }
}
