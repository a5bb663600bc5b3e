//! The fields of a word that encodes an instruction (sections 2.2 and 2.3).

ghost use Rattle.std.specs.Prelude.{◌≡◌, ◌<◌, ◌≤◌, ◌^◌, ◌+◌};
ghost use Rattle.rv32.specs.Fields as isa;

use crate::register::Register;

/// The register `rd`.
#[inline(always)]
pub fn target(word: u32) -> Register
    ensures { result ≡ isa.target word }
{
    Register::new((word / 0x80 % 0x20) as u8)
}

/// The register `rs1`.
#[inline(always)]
pub fn first_source(word: u32) -> Register
    ensures { result ≡ isa.first_source word }
{
    Register::new((word / 0x8000 % 0x20) as u8)
}

/// The register `rs2`.
#[inline(always)]
pub fn second_source(word: u32) -> Register
    ensures { result ≡ isa.second_source word }
{
    Register::new((word / 0x10_0000 % 0x20) as u8)
}

/// A value of 12 bits, extended by its sign.
#[inline(always)]
fn extend_12(value: u32) -> u32
    requires { value < 2 ^ 12 }
    ensures { result ≡ isa.sign_extension 12 value }
{
    if value < 0x800 {
        value
    } else {
        value + 0xffff_f000
    }
}

/// The immediate value of an instruction of format I.
#[inline(always)]
pub fn immediate(word: u32) -> u32
    ensures { result ≡ isa.immediate word }
{
    extend_12(word / 0x10_0000)
}

/// The offset of an instruction of format S.
#[inline(always)]
pub fn store_offset(word: u32) -> u32
    ensures { result ≡ isa.store_offset word }
{
    extend_12(word / 0x200_0000 * 0x20 + word / 0x80 % 0x20)
}

/// The offset of an instruction of format B.
#[inline(always)]
pub fn branch_offset(word: u32) -> u32
    ensures { result ≡ isa.branch_offset word }
{
    let offset = word / 0x8000_0000 * 0x1000
        + word / 0x80 % 2 * 0x800
        + word / 0x200_0000 % 0x40 * 0x20
        + word / 0x100 % 0x10 * 2;
    if offset < 0x1000 {
        offset
    } else {
        offset + 0xffff_e000
    }
}

/// The value of an instruction of format U.
#[inline(always)]
pub fn upper(word: u32) -> u32
    ensures { result ≡ isa.upper word }
{
    word / 0x1000 * 0x1000
}

/// The offset of an instruction of format J.
#[inline(always)]
pub fn jump_offset(word: u32) -> u32
    ensures { result ≡ isa.jump_offset word }
{
    let offset = word / 0x8000_0000 * 0x10_0000
        + word / 0x1000 % 0x100 * 0x1000
        + word / 0x10_0000 % 2 * 0x800
        + word / 0x20_0000 % 0x400 * 2;
    if offset < 0x10_0000 {
        offset
    } else {
        offset + 0xffe0_0000
    }
}
