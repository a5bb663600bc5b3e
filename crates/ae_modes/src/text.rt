// GCM's counter mode (SP 800-38D, section 6.5): the text of a piece of a message, from any place on.

ghost use Rattle.std.specs.Prelude.{◌≡◌, ◌+◌, ◌*◌, ◌^◌, ◌<◌, ◌≤◌, ℕ, length, take, drop};
ghost use Rattle.aes_core.specs.Key.{key_bytes};
ghost use Rattle.aes_core.specs.Shared.{IsSharedStart};
ghost use Rattle.aes_modes.specs.Modes.{counter_block};
ghost use Rattle.ae_modes.specs.Gcm.{counter_after, text_from};

use aes_core::{Key, SharedStart};
use aes_modes::{start_at, write_piece};

/// Writes the text of a piece of the message that begins at a place.
pub(crate) fn write_text(key: &Key, counter: u128, place: usize, input: &[u8], output: &mut [u8])
    requires small { place + length input.now ≤ 2 ^ 36 }
    requires room { length input.now ≤ length output.old }
    ensures text { take (length input.now) output.new
        ≡ text_from (key_bytes key.now) counter place input.now }
    ensures rest { drop (length input.now) output.new ≡ drop (length input.now) output.old }
{
    let count = place % 16;
    let length = input.len();
    let first = 1 + place / 16;
    let mut start = start_at(key, raised(counter, first));
    let mut at = 0;
    for i in 0..(count + length + 15) / 16 {
        let end = (16 * i + 16 - count).min(length);
        let skip = count + at - 16 * i;
        let here = raised(counter, first + i);
        write_piece(
            key,
            &start,
            here,
            skip,
            &input[at..end],
            &mut output[at..end],
        );
        go_on(key, &mut start, counter, first + i);
        at = end;
    }
}

/// The number of a counter that is raised `n` times: its last 32 bits alone.
#[inline(always)]
fn raised(counter: u128, n: usize) -> u128
    requires { n < 2 ^ 36 }
    ensures { result ≡ counter_after counter n }
{
    let low = counter & 0xffff_ffff;
    (counter - low) + ((low + n as u128) & 0xffff_ffff)
}

// Goes on from the counter that is raised `n` times to the next: `start` is computed anew where more than the last byte
// is another.
#[inline(always)]
fn go_on(key: &Key, start: &mut SharedStart, counter: u128, n: usize)
    requires small { n + 1 < 2 ^ 36 }
    requires shared { IsSharedStart key.now (counter_block (counter_after counter n)) start.old }
    ensures { IsSharedStart key.now (counter_block (counter_after counter (n + 1))) start.new }
{
    let next = raised(counter, n + 1);
    if next & 0xff == 0 {
        *start = start_at(key, next);
    }
}
