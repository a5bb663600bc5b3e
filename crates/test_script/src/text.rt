//! The lines of a text.

ghost use Rattle.std.specs.Prelude.{◌≡◌, ◌==◌, ◌+◌, count_by};

/// How many lines a text has: one for each line feed, and the one behind the last of them, also where it is empty.
pub fn count_of_lines(text: &[u8]) -> usize
    ensures { result ≡ count_by (λ c. c == 10) text.now + 1 }
{
    let mut ended = 0;
    for byte in text {
        if *byte == b'\n' {
            ended += 1;
        }
    }
    ended + 1
}
