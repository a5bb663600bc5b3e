//! Which instruction a word encodes (RISC-V Unprivileged ISA, the listing of RV32I).

ghost use Rattle.std.specs.Prelude.{◌≡◌};
ghost use Rattle.rv32.specs.Decode as isa;

use crate::fields::{
    branch_offset, first_source, immediate, jump_offset, second_source, store_offset, target, upper,
};
use crate::instruction::{Comparison, Instruction, Operation, Size};

#[inline(always)]
fn branch(word: u32, when: Comparison) -> Option<Instruction>
    ensures { result ≡ isa.branch word when }
{
    Some(Instruction::Branch {
        when,
        one: first_source(word),
        other: second_source(word),
        offset: branch_offset(word),
    })
}

#[inline(always)]
fn load(word: u32, size: Size) -> Option<Instruction>
    ensures { result ≡ isa.load word size }
{
    Some(Instruction::Load {
        size,
        to: target(word),
        base: first_source(word),
        offset: immediate(word),
    })
}

#[inline(always)]
fn load_unsigned(word: u32, size: Size) -> Option<Instruction>
    ensures { result ≡ isa.load_unsigned word size }
{
    Some(Instruction::LoadUnsigned {
        size,
        to: target(word),
        base: first_source(word),
        offset: immediate(word),
    })
}

#[inline(always)]
fn store(word: u32, size: Size) -> Option<Instruction>
    ensures { result ≡ isa.store word size }
{
    Some(Instruction::Store {
        size,
        from: second_source(word),
        base: first_source(word),
        offset: store_offset(word),
    })
}

#[inline(always)]
fn operate_value(word: u32, by: Operation, value: u32) -> Option<Instruction>
    ensures { result ≡ isa.operate_value word by value }
{
    Some(Instruction::OperateValue {
        by,
        to: target(word),
        one: first_source(word),
        value,
    })
}

#[inline(always)]
fn operate(word: u32, by: Operation) -> Option<Instruction>
    ensures { result ≡ isa.operate word by }
{
    Some(Instruction::Operate {
        by,
        to: target(word),
        one: first_source(word),
        other: second_source(word),
    })
}

fn jump_to(word: u32) -> Option<Instruction>
    ensures { result ≡ isa.jump_to word }
{
    match word / 0x1000 % 8 {
        0 => Some(Instruction::JumpTo {
            link: target(word),
            base: first_source(word),
            offset: immediate(word),
        }),
        _ => None,
    }
}

fn any_branch(word: u32) -> Option<Instruction>
    ensures { result ≡ isa.any_branch word }
{
    match word / 0x1000 % 8 {
        0 => branch(word, Comparison::Equal),
        1 => branch(word, Comparison::NotEqual),
        4 => branch(word, Comparison::Less),
        5 => branch(word, Comparison::AtLeast),
        6 => branch(word, Comparison::LessUnsigned),
        7 => branch(word, Comparison::AtLeastUnsigned),
        _ => None,
    }
}

fn any_load(word: u32) -> Option<Instruction>
    ensures { result ≡ isa.any_load word }
{
    match word / 0x1000 % 8 {
        0 => load(word, Size::Byte),
        1 => load(word, Size::Half),
        2 => load(word, Size::Word),
        4 => load_unsigned(word, Size::Byte),
        5 => load_unsigned(word, Size::Half),
        _ => None,
    }
}

fn any_store(word: u32) -> Option<Instruction>
    ensures { result ≡ isa.any_store word }
{
    match word / 0x1000 % 8 {
        0 => store(word, Size::Byte),
        1 => store(word, Size::Half),
        2 => store(word, Size::Word),
        _ => None,
    }
}

/// A shift to the right by a value of five bits.
fn shift_right(word: u32) -> Option<Instruction>
    ensures { result ≡ isa.shift_right word }
{
    match word / 0x200_0000 {
        0 => operate_value(word, Operation::ShiftRight, word / 0x10_0000 % 0x20),
        0x20 => operate_value(word, Operation::ShiftRightSigned, word / 0x10_0000 % 0x20),
        _ => None,
    }
}

fn shift_left(word: u32) -> Option<Instruction>
    ensures { result ≡ isa.shift_left word }
{
    match word / 0x200_0000 {
        0 => operate_value(word, Operation::ShiftLeft, word / 0x10_0000 % 0x20),
        _ => None,
    }
}

fn any_value(word: u32) -> Option<Instruction>
    ensures { result ≡ isa.any_value word }
{
    match word / 0x1000 % 8 {
        0 => operate_value(word, Operation::Add, immediate(word)),
        1 => shift_left(word),
        2 => operate_value(word, Operation::SetLess, immediate(word)),
        3 => operate_value(word, Operation::SetLessUnsigned, immediate(word)),
        4 => operate_value(word, Operation::Xor, immediate(word)),
        5 => shift_right(word),
        6 => operate_value(word, Operation::Or, immediate(word)),
        _ => operate_value(word, Operation::And, immediate(word)),
    }
}

fn plain_operation(word: u32) -> Option<Instruction>
    ensures { result ≡ isa.plain_operation word }
{
    match word / 0x1000 % 8 {
        0 => operate(word, Operation::Add),
        1 => operate(word, Operation::ShiftLeft),
        2 => operate(word, Operation::SetLess),
        3 => operate(word, Operation::SetLessUnsigned),
        4 => operate(word, Operation::Xor),
        5 => operate(word, Operation::ShiftRight),
        6 => operate(word, Operation::Or),
        _ => operate(word, Operation::And),
    }
}

fn other_operation(word: u32) -> Option<Instruction>
    ensures { result ≡ isa.other_operation word }
{
    match word / 0x1000 % 8 {
        0 => operate(word, Operation::Subtract),
        5 => operate(word, Operation::ShiftRightSigned),
        _ => None,
    }
}

fn any_operation(word: u32) -> Option<Instruction>
    ensures { result ≡ isa.any_operation word }
{
    match word / 0x200_0000 {
        0 => plain_operation(word),
        0x20 => other_operation(word),
        _ => None,
    }
}

fn any_system(word: u32) -> Option<Instruction>
    ensures { result ≡ isa.any_system word }
{
    match word {
        0x73 => Some(Instruction::Call),
        0x10_0073 => Some(Instruction::Break),
        _ => None,
    }
}

fn any_fence(word: u32) -> Option<Instruction>
    ensures { result ≡ isa.any_fence word }
{
    match word / 0x1000 % 8 {
        0 => Some(Instruction::Fence),
        _ => None,
    }
}

/// The instruction that a word encodes, and none where it encodes none of RV32I.
pub fn decode(word: u32) -> Option<Instruction>
    ensures { result ≡ isa.decode word }
{
    match word % 0x80 {
        0x37 => Some(Instruction::LoadUpper {
            to: target(word),
            value: upper(word),
        }),
        0x17 => Some(Instruction::AddUpper {
            to: target(word),
            value: upper(word),
        }),
        0x6f => Some(Instruction::Jump {
            link: target(word),
            offset: jump_offset(word),
        }),
        0x67 => jump_to(word),
        0x63 => any_branch(word),
        0x03 => any_load(word),
        0x23 => any_store(word),
        0x13 => any_value(word),
        0x33 => any_operation(word),
        0x0f => any_fence(word),
        0x73 => any_system(word),
        _ => None,
    }
}
