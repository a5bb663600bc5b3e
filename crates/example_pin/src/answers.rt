//! What Pin does with the answers to its asks: each leads to the next ask, or ends the command.

ghost use Rattle.std.specs.Prelude.{◌≡◌, IfOk};
ghost use Rattle.example_pin.specs.PinAnswers as rows;

use crate::pin::{Attempt, MAX_PIN_BYTES, Pin, TRIES};
use app_api::{Answer, Ask, Out};
use app_kit::{Reaction, at_p1};
use std::alloc::Global;
use tee_base::{Bytes, Code, NoMemory};

/// The code of an answer that isn't the one hoped for.
#[tactic(auto, unfolding(crate::specs::PinAnswers::code_of))]
fn code_of(answer: &Answer) -> Code
    ensures { result ≡ rows.code_of answer.now }
{
    match answer {
        Answer::Refused(code) => *code,
        _ => Code::GENERIC,
    }
}

/// Such an answer ends the command.
pub fn refused(answer: Answer) -> Reaction<Pin>
    ensures { result ≡ rows.end_with_refusal answer }
{
    Reaction::fail_with(Pin::Idle, code_of(&answer))
}

/// The object is closed, and then the tries are shown.
fn close(object: u32, code: Code, tries: u8) -> Reaction<Pin>
    ensures { result ≡ rows.close object code tries }
{
    Reaction::ask_for(Pin::Closing(code, tries), Ask::ObjClose { object })
}

/// The object is closed, and then the command ends with a code alone.
fn leave(object: u32, code: Code) -> Reaction<Pin>
    ensures { result ≡ rows.leave object code }
{
    Reaction::ask_for(Pin::Leaving(code), Ask::ObjClose { object })
}

/// The tries are to be kept, at the start of the object.
fn keep_tries(attempt: Attempt) -> Reaction<Pin>
    ensures { result ≡ rows.keep_tries attempt }
{
    Reaction::ask_for(
        Pin::Seeking(attempt),
        Ask::ObjSeek {
            object: attempt.object,
            offset: 0,
            whence: 0,
        },
    )
}

/// 1: the new object is there.
#[tactic(auto, unfolding(crate::specs::PinAnswers::after_setting))]
pub fn after_setting(answer: Answer) -> Reaction<Pin>
    ensures { result ≡ rows.after_setting answer }
{
    match answer {
        Answer::Number(object) => close(object, Code::SUCCESS, TRIES),
        other => refused(other),
    }
}

/// 2: the object is open, and all of it is read.
#[tactic(auto, unfolding(crate::specs::PinAnswers::after_opening))]
pub fn after_opening(guess: Bytes, answer: Answer) -> Reaction<Pin>
    ensures { result ≡ rows.after_opening guess answer }
{
    match answer {
        Answer::Number(object) => Reaction::ask_for(
            Pin::Reading(object, guess),
            Ask::ObjRead {
                object,
                count: MAX_PIN_BYTES as u32 + 1,
            },
        ),
        other => refused(other),
    }
}

/// A try is taken, where one is left.
fn take_try(object: u32, tries: u8, is_right: bool) -> Reaction<Pin>
    ensures { result ≡ rows.take_try object tries is_right }
{
    if tries == 0 {
        return close(object, Code::ACCESS_DENIED, 0);
    }
    keep_tries(Attempt {
        object,
        tries: tries - 1,
        is_right,
    })
}

/// What the object holds is the tries and the PIN.
#[tactic(auto, unfolding(crate::specs::PinAnswers::judge))]
fn judge(object: u32, kept: &[u8], guess: &[u8]) -> Reaction<Pin>
    ensures { result ≡ rows.judge object kept.now guess.now }
{
    match kept.split_first() {
        Some((tries, pin)) => take_try(object, *tries, pin == guess),
        None => leave(object, Code::BAD_STATE),
    }
}

/// 2: what the object holds.
#[tactic(auto, unfolding(crate::specs::PinAnswers::after_reading))]
pub fn after_reading(object: u32, guess: &Bytes, answer: Answer) -> Reaction<Pin>
    ensures { result ≡ rows.after_reading object guess.now answer }
{
    match answer {
        Answer::Content(kept) => judge(object, kept.as_slice(), guess.as_slice()),
        other => leave(object, code_of(&other)),
    }
}

/// 2: the position is at the tries, which are written.
#[tactic(auto, unfolding(crate::specs::PinAnswers::after_seeking))]
pub fn after_seeking(
    alloc: Global,
    attempt: Attempt,
    answer: Answer,
) -> Result<Reaction<Pin>, NoMemory>
    ensures { IfOk result (λ reaction. reaction ≡ rows.after_seeking attempt answer) }
{
    let object = attempt.object;
    match answer {
        Answer::Done => {
            let bytes = Bytes::from_slice(alloc, &[attempt.tries])?;
            let ask = Ask::ObjWrite { object, bytes };
            Ok(Reaction::ask_for(Pin::Counting(attempt), ask))
        }
        other => Ok(leave(object, code_of(&other))),
    }
}

/// The tries are kept: a wrong guess is told; a right one gets all tries back, and is told when they are kept too.
fn tell(attempt: Attempt) -> Reaction<Pin>
    ensures { result ≡ rows.tell attempt }
{
    let Attempt {
        object,
        tries,
        is_right,
    } = attempt;
    if !is_right {
        close(object, Code::SECURITY, tries)
    } else if tries < TRIES {
        keep_tries(Attempt {
            object,
            tries: TRIES,
            is_right,
        })
    } else {
        close(object, Code::SUCCESS, tries)
    }
}

/// 2: the tries are written.
#[tactic(auto, unfolding(crate::specs::PinAnswers::after_counting))]
pub fn after_counting(attempt: Attempt, answer: Answer) -> Reaction<Pin>
    ensures { result ≡ rows.after_counting attempt answer }
{
    match answer {
        Answer::Done => tell(attempt),
        other => leave(attempt.object, code_of(&other)),
    }
}

/// The object is closed.
#[tactic(auto, unfolding(crate::specs::PinAnswers::after_closing))]
pub fn after_closing(code: Code, tries: u8, answer: Answer) -> Reaction<Pin>
    ensures { result ≡ rows.after_closing code tries answer }
{
    match answer {
        Answer::Done => {
            Reaction::return_with(Pin::Idle, code, at_p1(Out::Value(u32::from(tries), 0)))
        }
        other => refused(other),
    }
}

/// The object is closed, where the command had to end.
#[tactic(auto, unfolding(crate::specs::PinAnswers::after_leaving))]
pub fn after_leaving(code: Code, answer: Answer) -> Reaction<Pin>
    ensures { result ≡ rows.after_leaving code answer }
{
    match answer {
        Answer::Done => Reaction::fail_with(Pin::Idle, code),
        other => refused(other),
    }
}
