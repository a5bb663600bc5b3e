//! Numbers in decimal digits.

ghost use Rattle.std.specs.Prelude.{◌≡◌, ◌<◌, ◌≤◌, ◌^◌, ◌↔◌, ℕ, IfOk};
ghost use Rattle.script.specs.Numbers.{digits_on, if_it_fits, number_of, number32_of, within};
ghost use Rattle.script.specs.Parameters.{Gives};
ghost use Rattle.script.specs.Words.{IsNumber};

use crate::words::LineError;

/// The number below 2^64 that a word is, as a line of a script has one: in decimal digits without a sign. There may be zeros before
/// it.
pub fn read_number(word: &[u8]) -> Option<u64>
    ensures { (n : ℕ) → (result ≡ Some n) ↔ (IsNumber word.now n × (n < 2 ^ 64)) }
{
    number(word)
}

/// The value of decimal digits without a sign, below 2^64. There may be zeros before it.
#[tactic(auto, unfolding(crate::specs::Numbers::number_of))]
pub fn number(digits: &[u8]) -> Option<u64>
    ensures { result ≡ number_of digits.now }
{
    match digits {
        [] => None,
        _ => value(digits),
    }
}

/// The value of decimal digits, below 2^64.
fn value(digits: &[u8]) -> Option<u64>
    ensures { result ≡ if_it_fits (digits_on 0 digits.now) }
{
    let mut value = 0u64;
    for digit in digits {
        if !digit.is_ascii_digit() {
            return None;
        }
        let unit = u64::from(*digit - b'0');
        if value > (u64::MAX - unit) / 10 {
            return None;
        }
        value = value * 10 + unit;
    }
    Some(value)
}

/// A number within these bounds, which a line must have.
pub fn number_within(digits: &[u8], low: u64, high: u64) -> Result<u64, LineError>
    ensures value { Gives result (within low high (number_of digits.now)) }
    ensures low { IfOk result (λ n. low ≤ n) }
    ensures high { IfOk result (λ n. n ≤ high) }
{
    match number(digits) {
        Some(n) if low <= n && n <= high => Ok(n),
        _ => Err(LineError::Bad),
    }
}

/// A number of 32 bits, which a line must have.
pub fn number32(digits: &[u8]) -> Result<u32, LineError>
    ensures { Gives result (number32_of digits.now) }
{
    let n = number_within(digits, 0, 4_294_967_295)?;
    Ok(n as u32)
}
