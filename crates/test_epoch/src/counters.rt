//! Where a board's counter stands behind an opening.

ghost use Rattle.std.specs.Prelude.{ℕ, ◌≡◌, IsErr, None, Ok, Some};

use epoch::OpenAnswer;

/// The counter behind an opening that answered so and found the counter there: at the sequence that was found, and as
/// it was where none was found.
pub fn counter_behind(answer: &Result<Option<u64>, OpenAnswer>, counter: u32) -> u64
    ensures found { (sequence : ℕ) → answer.now ≡ Ok (Some sequence) → result ≡ sequence }
    ensures blank { answer.now ≡ Ok None → result ≡ counter }
    ensures refused { IsErr answer.now → result ≡ counter }
{
    match answer {
        Ok(Some(sequence)) => *sequence,
        _ => u64::from(counter),
    }
}
