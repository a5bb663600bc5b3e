//! What comes of an ask.

ghost use Rattle.std.specs.Prelude.{◌≡◌, List, ℕ, IfOk, OnOk, OnErr, Result, Err};
ghost use Rattle.crypto_ops.specs.declared.answer.OpAnswer.{OpAnswer};
ghost use Rattle.crypto_ops.specs.Operations.{Answers};
ghost use Rattle.crypto_ops.specs.declared.sealed.OpSealed.{OpSealed};
ghost use Rattle.operation_asks.specs.Effects.{told_refusal, told_done, told_content, told_sealed};

use app_api::Answer;
use crypto_ops::{OpAnswer, OpSealed};
use tee_base::{Bytes, Code, NoMemory};

/// What comes of an ask.
#[derive(Debug, Drop)]
pub enum Outcome {
    /// The application is given this answer next.
    Answered(Answer),
    /// The entry panics.
    Panicked,
}

/// How an ask went.
#[derive(Debug, Drop)]
pub enum CryptoOutcome {
    /// It was served.
    Settled(Outcome),
    /// The key of this object decides, by `Operations::set_key`. Nothing has changed.
    WantsKey { op: u32, object: u32 },
}

/// An ask that is done.
pub(crate) fn done() -> Outcome
    ensures { result ≡ Outcome.Answered Answer.Done }
{
    Outcome::Answered(Answer::Done)
}

/// An ask that is refused.
pub(crate) fn refused(code: Code) -> Outcome
    ensures { result ≡ Outcome.Answered (Answer.Refused code) }
{
    Outcome::Answered(Answer::Refused(code))
}

/// How an application is told of a refusal.
pub(crate) fn told_refusal(answer: OpAnswer) -> Outcome
    ensures { result ≡ told_refusal answer }
{
    match answer {
        OpAnswer::NotSupported => refused(Code::NOT_SUPPORTED),
        OpAnswer::Short(needed) => Outcome::Answered(Answer::Short(needed)),
        OpAnswer::MacInvalid => refused(Code::MAC_INVALID),
        OpAnswer::Misuse => Outcome::Panicked,
        OpAnswer::NoMemory => refused(Code::OUT_OF_MEMORY),
    }
}

/// How an application is told of a call without a result, which takes no memory.
pub(crate) fn told_done(answer: Result<(), OpAnswer>) -> Outcome
    ensures { result ≡ told_done answer }
{
    match answer {
        Ok(()) => done(),
        Err(answer) => told_refusal(answer),
    }
}

/// How an application is told of a call with a content.
pub(crate) fn told_content(answer: Result<Bytes, OpAnswer>) -> Result<Outcome, NoMemory>
    ensures told { IfOk result (λ outcome. outcome ≡ told_content answer) }
    ensures stated { (stated : Result (List ℕ) OpAnswer) → Answers answer stated
        → OnOk result (answer ≡ stated) }
    ensures want { OnErr result (answer ≡ Err OpAnswer.NoMemory) }
{
    match answer {
        Ok(content) => Ok(Outcome::Answered(Answer::Content(content))),
        Err(OpAnswer::NoMemory) => Err(NoMemory),
        Err(answer) => Ok(told_refusal(answer)),
    }
}

/// How an application is told of a call with a content and its tag.
pub(crate) fn told_sealed(answer: Result<OpSealed, OpAnswer>) -> Result<Outcome, NoMemory>
    ensures told { IfOk result (λ outcome. outcome ≡ told_sealed answer) }
    ensures stated { (stated : Result OpSealed OpAnswer) → Answers answer stated
        → OnOk result (answer ≡ stated) }
    ensures want { OnErr result (answer ≡ Err OpAnswer.NoMemory) }
{
    match answer {
        Ok(OpSealed { content, tag }) => Ok(Outcome::Answered(Answer::Sealed { content, tag })),
        Err(OpAnswer::NoMemory) => Err(NoMemory),
        Err(answer) => Ok(told_refusal(answer)),
    }
}
