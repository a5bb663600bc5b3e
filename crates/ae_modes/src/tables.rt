// Products in the field of GHASH (SP 800-38D, section 6.3), by four tables of sixteen entries a hash subkey.

ghost use Rattle.std.specs.Prelude.{◌≡◌, ℕ, ◌+◌, ◌/◌, ◌%◌, ◌^◌, ◌<◌, ◌==◌, if◌then◌else◌};
ghost use Rattle.ae_modes.specs.Field.{times_x, sum_of_powers, product};
ghost use Rattle.ae_modes.specs.Tables.{times_power, IsTable, IsTablesOf};

// What x^128 is: x^7 + x^2 + x + 1.
const REDUCTION: u128 = 0xe1000000000000000000000000000000;

/// The products of a hash subkey with the sixteen numbers of four bits, and with these 4, 8 and 12 places further on.
#[derive(Clone, Copy)]
pub(crate) struct Tables {
    pub(crate) first: [u128; 16],
    pub(crate) second: [u128; 16],
    pub(crate) third: [u128; 16],
    pub(crate) fourth: [u128; 16],
}

/// The tables of a hash subkey.
pub(crate) fn tables_of(subkey: u128) -> Tables
    ensures { IsTablesOf result subkey }
{
    let by_4 = times_nibble(subkey);
    let by_8 = times_nibble(by_4);
    let by_12 = times_nibble(by_8);
    let first = table_of(subkey);
    let second = table_of(by_4);
    let third = table_of(by_8);
    let fourth = table_of(by_12);
    Tables {
        first,
        second,
        third,
        fourth,
    }
}

// The product by x^4.
#[tactic(auto, unfolding(crate::specs::Tables::times_power))]
fn times_nibble(v: u128) -> u128
    ensures { result ≡ times_power 4 v }
{
    times_x(times_x(times_x(times_x(v))))
}

// The product by x.
fn times_x(v: u128) -> u128
    ensures { result ≡ times_x v }
{
    (v >> 1) ^ (v & 1) * REDUCTION
}

// The products with the sixteen numbers of four bits.
fn table_of(v: u128) -> [u128; 16]
    ensures { IsTable result v }
{
    let mut table = [0; 16];
    for i in 0..16 {
        table[i] = entry(i, v);
    }
    table
}

// The product with one number of four bits.
fn entry(i: usize, v: u128) -> u128
    ensures { result ≡ sum_of_powers 4 i v }
{
    let second = times_x(v);
    let third = times_x(second);
    let fourth = times_x(third);
    chosen(i, 3, v) ^ (chosen(i, 2, second) ^ (chosen(i, 1, third) ^ chosen(i, 0, fourth)))
}

// `v` where the number has this bit, and else 0.
fn chosen(i: usize, bit: u32, v: u128) -> u128
    requires { bit < 4 }
    ensures { result ≡ (if i / 2 ^ bit % 2 == 1 then v else 0) }
{
    if (i >> bit) % 2 == 1 { v } else { 0 }
}

// The product of sixteen bits by x^16, which has powers from x^128 on alone.
#[inline(always)]
fn reduced(bits: u16) -> u128
    ensures { result ≡ times_power 16 bits }
{
    let x = bits as u128;
    (x << 112) ^ (x << 111) ^ (x << 110) ^ (x << 105)
}

// The product by x^16.
#[inline(always)]
fn times_word(v: u128) -> u128
    ensures { result ≡ times_power 16 v }
{
    (v >> 16) ^ reduced((v & 0xffff) as u16)
}

impl Tables {
    ghost use Rattle.std.specs.Prelude.{◌≡◌, ℕ};
    ghost use Rattle.ae_modes.specs.Field.{sum_of_powers, product};
    ghost use Rattle.ae_modes.specs.Tables.{IsTablesOf};

    // The product of the subkey with sixteen bits.
    #[inline(always)]
    fn times_bits(&self, bits: u16) -> u128
        ensures { (h : ℕ) → IsTablesOf self.now h → result ≡ sum_of_powers 16 bits h }
    {
        let first = self.first[(bits >> 12) as usize];
        let second = self.second[((bits >> 8) & 15) as usize];
        let third = self.third[((bits >> 4) & 15) as usize];
        let fourth = self.fourth[(bits & 15) as usize];
        first ^ (second ^ (third ^ fourth))
    }

    /// The product of a block and the subkey.
    #[inline(always)]
    pub(crate) fn product(&self, block: u128) -> u128
        ensures { (h : ℕ) → IsTablesOf self.now h → result ≡ product block h }
    {
        let mut rest = block;
        let mut sum = 0;
        for _k in 0..8usize {
            sum = times_word(sum) ^ self.times_bits((rest & 0xffff) as u16);
            rest >>= 16;
        }
        sum
    }
}
