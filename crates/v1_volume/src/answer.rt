//! Why a volume of the first version isn't taken over.
ghost use Rattle.std.specs.Prelude.{◌≡◌};
ghost use Rattle.v1_volume.specs.Answers.{old_answer};

use epoch::OpenAnswer;
use store_api::{LeafAnswer, Mismatch};
use tee_base::NoMemory;
use thiserror::Error;

/// Why a volume of the first version isn't taken over.
#[derive(Clone, Copy, Debug, PartialEq, Eq, Error)]
pub enum OldAnswer {
    /// A call of the board failed.
    #[error("the board failed")]
    Failed,
    /// There was no memory.
    #[error("out of memory")]
    NoMemory,
    /// What was read isn't what was written: two tags that should be equal.
    #[error("the volume is damaged")]
    Mismatch(Mismatch),
    /// A region breaks the rules of its form, and this is the least of its leaves that does.
    #[error("region {region} breaks a rule at leaf {leaf}")]
    Garbled { region: u8, leaf: u8 },
}

impl From<NoMemory> for OldAnswer {
    ghost use Rattle.std.specs.Prelude.{◌≡◌};
    ghost use Rattle.v1_volume.specs.declared.answer.OldAnswer.TheVariants.{NoMemory as WantOfMemory};

    ghost from_gives = { λ _ answer. answer ≡ WantOfMemory };

    fn from(_error: NoMemory) -> OldAnswer {
        OldAnswer::NoMemory
    }
}

impl From<LeafAnswer> for OldAnswer {
    ghost use Rattle.std.specs.Prelude.{◌≡◌};
    ghost use Rattle.v1_volume.specs.Answers.{old_answer};

    ghost from_gives = { λ leaf answer. answer ≡ old_answer leaf };

    fn from(answer: LeafAnswer) -> OldAnswer {
        match answer {
            LeafAnswer::Mismatch(tags) => OldAnswer::Mismatch(tags),
            LeafAnswer::NoMemory => OldAnswer::NoMemory,
            LeafAnswer::Lost | LeafAnswer::Failed => OldAnswer::Failed,
        }
    }
}

impl From<OldAnswer> for OpenAnswer {
    ghost use Rattle.std.specs.Prelude.{◌≡◌};
    ghost use Rattle.v1_volume.specs.Answers.{open_answer};

    ghost from_gives = { λ old answer. answer ≡ open_answer old };

    fn from(answer: OldAnswer) -> OpenAnswer {
        match answer {
            OldAnswer::Failed => OpenAnswer::Failed,
            OldAnswer::NoMemory => OpenAnswer::NoMemory,
            OldAnswer::Mismatch(tags) => OpenAnswer::OldMismatch(tags),
            OldAnswer::Garbled { region, leaf } => OpenAnswer::OldGarbled { region, leaf },
        }
    }
}
