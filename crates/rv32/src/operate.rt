//! What two values are combined to, and how they compare.

ghost use Rattle.std.specs.Prelude.{◌≡◌};
ghost use Rattle.rv32.specs.Operate as isa;

use crate::instruction::{Comparison, Operation, Size};

/// Two values combined (section 2.4).
#[inline(always)]
#[tactic(auto, unfolding(crate::specs::Operate::operate))]
pub fn operate(by: Operation, a: u32, b: u32) -> u32
    ensures { result ≡ isa.operate by a b }
{
    match by {
        Operation::Add => a.wrapping_add(b),
        Operation::Subtract => a.wrapping_sub(b),
        Operation::ShiftLeft => a.wrapping_shl(b),
        Operation::SetLess => u32::from(a.cast_signed() < b.cast_signed()),
        Operation::SetLessUnsigned => u32::from(a < b),
        Operation::Xor => a ^ b,
        Operation::ShiftRight => a.wrapping_shr(b),
        Operation::ShiftRightSigned => (a.cast_signed() >> (b % 32)).cast_unsigned(),
        Operation::Or => a | b,
        Operation::And => a & b,
    }
}

/// Whether two values compare so (section 2.5).
#[inline(always)]
#[tactic(auto, unfolding(crate::specs::Operate::compares))]
pub fn compares(when: Comparison, a: u32, b: u32) -> bool
    ensures { result ≡ isa.compares when a b }
{
    match when {
        Comparison::Equal => a == b,
        Comparison::NotEqual => a != b,
        Comparison::Less => a.cast_signed() < b.cast_signed(),
        Comparison::AtLeast => a.cast_signed() >= b.cast_signed(),
        Comparison::LessUnsigned => a < b,
        Comparison::AtLeastUnsigned => a >= b,
    }
}

/// A value of this size extended by its sign. One that is larger than its size is no case that comes.
#[inline(always)]
#[tactic(auto, unfolding(crate::specs::Operate::extended_by))]
pub fn extended(size: Size, value: u32) -> u32
    ensures { result ≡ isa.extended_by size value }
{
    match size {
        Size::Byte => {
            if value < 0x80 {
                value
            } else {
                value.wrapping_add(0xffff_ff00)
            }
        }
        Size::Half => {
            if value < 0x8000 {
                value
            } else {
                value.wrapping_add(0xffff_0000)
            }
        }
        Size::Word => value,
    }
}
