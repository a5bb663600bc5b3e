//! What a refused store mostly means.

use epoch::OpenAnswer;

/// What this refusal mostly means, for a board over files.
pub fn refusal_reason(why: &OpenAnswer) -> &'static str {
    match why {
        OpenAnswer::TooSmall(_) => "the image has too few blocks for a volume",
        OpenAnswer::NoVolume(_) => {
            "the image holds nothing, but its counter was used: the image may be missing or another one"
        }
        OpenAnswer::BadHeader { .. } => "the key file may be another one, or the image is damaged",
        OpenAnswer::UnknownVersion(_) => "the image is of a version that this program doesn't know",
        OpenAnswer::Rollback { .. } => {
            "the image is older than its counter, or its newest gate is damaged: put back the image of the last run; tee-salvage reads what this one holds"
        }
        OpenAnswer::Ahead { .. } => "the counter's file may be missing or old",
        OpenAnswer::OldMismatch(_) =>
            "the image is of version 1 and damaged, so it was left as it is",
        OpenAnswer::OldGarbled { .. } => {
            "the image is of version 1 and one of its regions breaks a rule, so it was left as it is"
        }
        OpenAnswer::Failed => "a call of the board failed",
        OpenAnswer::NoMemory => "there is no memory",
    }
}
