// Counter mode, which works on any number of bytes.

use crate::counter::{start_at, write_piece};
use crate::stream::Stream;
use aes_core::SharedStart;

impl Stream {
    ghost use Rattle.std.specs.Prelude.{◌≡◌, ◌+◌, ◌-◌, ◌*◌, ◌/◌, ◌%◌, ◌^◌, ◌<◌, ◌≤◌, ◌++◌, ℕ, length, take, drop};
    ghost use Rattle.aes_core.specs.Key.{key_bytes};
    ghost use Rattle.aes_core.specs.Shared.{IsSharedStart};
    ghost use Rattle.aes_modes.specs.declared.modes.Mode.{Mode};
    ghost use Rattle.aes_modes.specs.Conversion.{Conversion, text_of, with_more};
    ghost use Rattle.aes_modes.specs.Stream.{Represents};
    ghost use Rattle.aes_modes.specs.Modes.{number_of, counter_block, ctr_from};

    // Goes on to this counter from the one before: `start` is computed anew where more than the last byte is another.
    #[inline(always)]
    fn go_on(&self, start: &mut SharedStart, counter: u128)
        ensures { (before : ℕ) → counter ≡ (before + 1) % 2 ^ 128
            → IsSharedStart self.now.key (counter_block before) start.old
            → IsSharedStart self.now.key (counter_block counter) start.new }
    {
        if counter & 0xff == 0 {
            *start = start_at(&self.key, counter);
        }
    }

    // Writes the text of the input.
    fn write_bytes(&self, input: &[u8], output: &mut [u8])
        requires small { length input.now ≤ 524288 }
        requires room { length input.now ≤ length output.old }
        ensures text { (j : ℕ) → self.now.counter ≡ (number_of self.now.iv + j) % 2 ^ 128
            → take (length input.now) output.new
            ≡ ctr_from (key_bytes self.now.key) self.now.iv (16 * j + self.now.count) input.now }
        ensures rest { drop (length input.now) output.new ≡ drop (length input.now) output.old }
    {
        let count = self.count;
        let length = input.len();
        let mut counter = self.counter;
        let mut start = start_at(&self.key, counter);
        let mut at = 0;
        for i in 0..(count + length + 15) / 16 {
            let end = (16 * i + 16 - count).min(length);
            let skip = count + at - 16 * i;
            write_piece(
                &self.key,
                &start,
                counter,
                skip,
                &input[at..end],
                &mut output[at..end],
            );
            counter = counter.wrapping_add(1);
            self.go_on(&mut start, counter);
            at = end;
        }
    }

    // Takes the input and writes its text, for which there is room.
    pub(crate) fn convert_bytes(&mut self, input: &[u8], output: &mut [u8])
        requires by_bytes { self.old.mode ≡ Mode.Ctr }
        requires small { length input.now ≤ 524288 }
        requires room { length input.now ≤ length output.old }
        ensures text { (c : Conversion) → Represents self.old c
            → text_of (with_more c input.now) ≡ text_of c ++ take (length input.now) output.new }
        ensures taken { (c : Conversion) → Represents self.old c
            → Represents self.new (with_more c input.now) }
        ensures rest { drop (length input.now) output.new ≡ drop (length input.now) output.old }
    {
        self.write_bytes(input, output);
        let total = self.count + input.len();
        self.counter = self.counter.wrapping_add((total / 16) as u128);
        self.count = total % 16;
    }
}
